//! Images: a compiled process as a file. It stands on sig_base and sig_kernel, whose kinds, functions and
//! operands an image has, on sig_dd, in whose terms its guards are functions of truths, on sig_clock
//! and sig_plan, whose plans have images, and on `indexmap` for the set of its nodes.
#![tactic(auto)]

mod answer;
mod choice;
mod counts;
mod field;
mod fits;
mod image_of;
mod image_ops;
mod image_parts;
mod images;
mod laws;
mod laws_plans;
pub mod limits;
mod names;
mod node_set;
mod numbering;
mod operand;
mod operation;
mod parts;
mod read;
mod run;
mod spelled;
mod stop;
mod write;

pub use answer::{FileAnswer, ImageAnswer};
pub use image_of::image;
pub use images::{Image, ImageMemory, ImageNode, ImageOp, ImageOpKind, ImageSignal};
pub use laws::{items_of_images_are_right, nodes_of_images_are_reduced};
pub use laws_plans::images_of_plans_are_right;
pub use read::read_image;
pub use run::{ImageCause, ImageEnd};
pub use spelled::has_names;
pub use write::write_image;
