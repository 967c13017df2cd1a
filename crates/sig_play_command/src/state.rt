//! The lines of a state.

ghost use Rattle.std.specs.Prelude.{◌≡◌, ◌≤◌};
ghost use Rattle.sig_play_command.specs.Prelude.{OnErr, OnOk, flat_map, length, ITEMS, IsCore, Rose, TookPrefix};
ghost use Rattle.sig_play_command.specs.inner.Happening.{TookOf};
ghost use Rattle.sig_play_command.specs.inner.StateLines.{actor_line, actor_pieces, end_word, lines_from, link_line, link_pieces, place_pieces, state_text, word_line};

use itoa::Buffer;
use sig_base::Place;
use sig_interleaving::{ActorState, Core};
use sig_outcome::put_pieces;
use sig_text::{Sink, WriteFault, put_all};

/// Appends the text of the state of a core: a line for each actor and each link and one for the failure
/// word, between the line that says that the events are done and the one behind which the run is
/// finished. It takes no memory.
pub(crate) fn put_state<S: Sink>(core: &Core<'_>, out: &mut S) -> Result<(), WriteFault>
    requires core { IsCore core.now }
    requires links { length core.now.plan.now.links ≤ ITEMS }
    ensures whole { OnOk result (TookOf S.took core.now state_text out.old out.new) }
    ensures prefix { OnErr result (TookOf (TookPrefix S.took) core.now state_text out.old out.new) }
    ensures failed { OnErr result (Rose (S.faults out.old) (S.faults out.new)) }
    ensures faults_stay { S.faults out.old ≤ S.faults out.new }
{
    put_all(out, b"events done\n")?;
    put_actors(core, out)?;
    put_links(core, out)?;
    put_word(core.word(), out)?;
    put_all(out, b"finish\n")
}

/// Appends a line for each actor.
fn put_actors<S: Sink>(core: &Core<'_>, out: &mut S) -> Result<(), WriteFault>
    requires core { IsCore core.now }
    ensures whole { OnOk result (TookOf S.took core.now (λ m. lines_from actor_line 0 m.actors) out.old out.new) }
    ensures prefix { OnErr result (TookOf (TookPrefix S.took) core.now (λ m. lines_from actor_line 0 m.actors) out.old out.new) }
    ensures failed { OnErr result (Rose (S.faults out.old) (S.faults out.new)) }
    ensures faults_stay { S.faults out.old ≤ S.faults out.new }
{
    for k in 0..u32::MAX {
        let Some(state) = core.actor(k) else {
            return Ok(());
        };
        put_actor(k, state, out)?;
    }
    Ok(())
}

/// Appends a line for each link.
fn put_links<S: Sink>(core: &Core<'_>, out: &mut S) -> Result<(), WriteFault>
    requires core { IsCore core.now }
    requires links { length core.now.plan.now.links ≤ ITEMS }
    ensures whole { OnOk result (TookOf S.took core.now (λ m. lines_from link_line 0 m.links) out.old out.new) }
    ensures prefix { OnErr result (TookOf (TookPrefix S.took) core.now (λ m. lines_from link_line 0 m.links) out.old out.new) }
    ensures failed { OnErr result (Rose (S.faults out.old) (S.faults out.new)) }
    ensures faults_stay { S.faults out.old ≤ S.faults out.new }
{
    for j in 0..u32::MAX {
        let Some(items) = core.link_len(j) else {
            return Ok(());
        };
        put_link(j, items, out)?;
    }
    Ok(())
}

/// Appends the line of the actor k.
fn put_actor<S: Sink>(k: u32, state: ActorState, out: &mut S) -> Result<(), WriteFault>
    ensures whole { OnOk result (S.took out.old (flat_map (λ piece. piece) (actor_pieces k state.instant state.step state.ended)) out.new) }
    ensures prefix { OnErr result (TookPrefix S.took out.old (flat_map (λ piece. piece) (actor_pieces k state.instant state.step state.ended)) out.new) }
    ensures failed { OnErr result (Rose (S.faults out.old) (S.faults out.new)) }
    ensures faults_stay { S.faults out.old ≤ S.faults out.new }
{
    let mut number = Buffer::new();
    let mut instant = Buffer::new();
    let mut step = Buffer::new();
    put_pieces(
        out,
        &[
            b"actor ",
            number.format(k).as_bytes(),
            b" ",
            instant.format(state.instant).as_bytes(),
            b" ",
            step.format(state.step).as_bytes(),
            end_word(state.ended),
        ],
    )
}

/// Whether an actor has ended, as the end of its line says it.
fn end_word(ended: bool) -> &'static [u8]
    ensures { result.now ≡ end_word ended }
{
    if ended { b" ended\n" } else { b" running\n" }
}

/// Appends the line of the link j, which holds so many items.
fn put_link<S: Sink>(j: u32, items: u32, out: &mut S) -> Result<(), WriteFault>
    ensures whole { OnOk result (S.took out.old (flat_map (λ piece. piece) (link_pieces j items)) out.new) }
    ensures prefix { OnErr result (TookPrefix S.took out.old (flat_map (λ piece. piece) (link_pieces j items)) out.new) }
    ensures failed { OnErr result (Rose (S.faults out.old) (S.faults out.new)) }
    ensures faults_stay { S.faults out.old ≤ S.faults out.new }
{
    let mut number = Buffer::new();
    let mut count = Buffer::new();
    put_pieces(
        out,
        &[
            b"link ",
            number.format(j).as_bytes(),
            b" ",
            count.format(items).as_bytes(),
            b"\n",
        ],
    )
}

/// Appends the line of the failure word.
fn put_word<S: Sink>(word: Option<Place>, out: &mut S) -> Result<(), WriteFault>
    ensures whole { OnOk result (S.took out.old (word_line word) out.new) }
    ensures prefix { OnErr result (TookPrefix S.took out.old (word_line word) out.new) }
    ensures failed { OnErr result (Rose (S.faults out.old) (S.faults out.new)) }
    ensures faults_stay { S.faults out.old ≤ S.faults out.new }
{
    match word {
        Some(place) => put_place(place, out),
        None => put_all(out, b"word none\n"),
    }
}

/// Appends the line of a failure word that is a place.
fn put_place<S: Sink>(place: Place, out: &mut S) -> Result<(), WriteFault>
    ensures whole { OnOk result (S.took out.old (flat_map (λ piece. piece) (place_pieces place)) out.new) }
    ensures prefix { OnErr result (TookPrefix S.took out.old (flat_map (λ piece. piece) (place_pieces place)) out.new) }
    ensures failed { OnErr result (Rose (S.faults out.old) (S.faults out.new)) }
    ensures faults_stay { S.faults out.old ≤ S.faults out.new }
{
    let mut instant = Buffer::new();
    let mut position = Buffer::new();
    put_pieces(
        out,
        &[
            b"word ",
            instant.format(place.instant).as_bytes(),
            b" ",
            position.format(place.pos).as_bytes(),
            b"\n",
        ],
    )
}
