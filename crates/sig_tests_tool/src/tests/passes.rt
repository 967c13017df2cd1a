//! How often clusters pass the gate: once at each instant that they come to, in turn, with workers and without.

use super::calls::{answer, call_of, compare};
use super::*;

/// Calls a line over TWO with so many workers.
fn pass<R: Threads + Wait + Sync + AllocGlobal>(
    rt: &R,
    line: &str,
    workers: u32,
    limits: &[(u64, u64); 5],
    wanted: (u8, &str, &str),
) -> Result<(), Fail> {
    let mut streams = call_of(rt.alloc(), TWO, TWO_FLOWS)?;
    let line = format!(in rt.alloc(); "{line} --workers {workers}")?;
    let status = answer(rt, &line, limits, &mut streams)?;
    compare(&line, &streams, status, wanted)
}

/// The cluster 1 of TWO has no value at the instant 4, to which the other one must come, too; it may go on while its
/// links have room. With a limit of two instants both pass once more, at the one that ends them. No cluster of the load
/// comes past the instant at which A, of the cluster 0, has no value.
#[test]
fn each_cluster_passes_each_instant_once(rt: HostRuntime) -> Result<(), Fail> {
    let (none, ended, loaded) = ((0, 0), (3, 3), (20_000, 20_001));
    for workers in [0, 1, 8] {
        pass(
            &rt,
            "run P F --capacity 1",
            workers,
            &[(4, 6), (4, 4), none, none, none],
            (0, TWO_TEXT, "end: input B exhausted after 3 instants\n"),
        )?;
        pass(
            &rt,
            "run P F --capacity 1 --instants 2",
            workers,
            &[ended, ended, none, none, none],
            (0, "Y 2\nZ 11\nY 3\nZ 21\n", "end: limit after 2 instants\n"),
        )?;
        pass(
            &rt,
            "load 1 3",
            workers,
            &[(20_001, 20_001), loaded, loaded, loaded, none],
            (
                0,
                "stages 3\ninstants 20000\nbytes 137834\nsum 6685077\n",
                "end: input A exhausted after 20000 instants\n",
            ),
        )?;
    }
    Ok(())
}
