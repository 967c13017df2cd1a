//! The links between actors.

ghost use Rattle.std.specs.Prelude.{◌≡◌, ◌≤◌, ◌^◌, ◌++◌};
ghost use Rattle.sig_part.specs.Prelude.{IfOk, OnOk, length, map, range_with_len, report_link};
ghost use Rattle.sig_part.specs.inner.Linking.{AddsLinks, AreLinksOfMarks};

use crate::marks::Marks;
use sig_base::{SigId, Signal};
use sig_plan::LinkInfo;
use std::alloc::{AllocError, Global};

/// The links, in order, where these signals are marked for each actor as its imports: one for each
/// signal and each actor that imports it, and then one for the reports of each cluster.
pub(crate) fn links_of(
    alloc: Global,
    signals: &[Signal],
    clusters: u32,
    marks: &[Marks],
) -> Result<Vec<LinkInfo>, AllocError>
    requires signals { length signals.now ≤ 2 ^ 32 }
    requires actors { length marks.now ≤ 2 ^ 32 }
    ensures { IfOk result (λ links. AreLinksOfMarks signals.now clusters marks.now links.items) }
{
    let mut links = Vec::new(alloc);
    for (number, signal) in signals.iter().enumerate() {
        add_links_of(&mut links, SigId(number as u32), signal.cluster, marks)?;
    }
    add_reports(&mut links, clusters)?;
    Ok(links)
}

/// Adds the links of a signal that this cluster writes: one for each actor that imports it.
fn add_links_of(
    links: &mut Vec<LinkInfo>,
    x: SigId,
    writer: u32,
    marks: &[Marks],
) -> Result<(), AllocError>
    requires { length marks.now ≤ 2 ^ 32 }
    ensures { OnOk result (AddsLinks x writer marks.now links.old.items links.new.items) }
{
    for (reader, imported) in marks.iter().enumerate() {
        if imported.has(x) {
            links.push(LinkInfo {
                signal: Some(x),
                writer,
                reader: reader as u32,
            })?;
        }
    }
    Ok(())
}

/// Adds the links on which the clusters report to the collector.
fn add_reports(links: &mut Vec<LinkInfo>, clusters: u32) -> Result<(), AllocError>
    ensures { OnOk result (links.new.items ≡ links.old.items ++ map (report_link clusters) (range_with_len 0 clusters)) }
{
    for cluster in 0..clusters {
        links.push(LinkInfo {
            signal: None,
            writer: cluster,
            reader: clusters,
        })?;
    }
    Ok(())
}
