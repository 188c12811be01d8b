// Blobs: what a message points to that stands in a file of its own.
#![tactic(auto)]

mod bank;
mod blob_files;
mod blob_io;
mod fault;
mod note;
mod register;
mod source;

pub use bank::Bank;
pub use blob_files::BlobFiles;
pub use blob_io::read_blob;
pub use fault::BankFault;
pub use note::{Extent, Note};
pub use register::Register;
pub use source::BlobSource;
