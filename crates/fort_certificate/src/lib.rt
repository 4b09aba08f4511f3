//! Certificates as text, and read from the forms of a text.
#![tactic(auto)]

mod build;
mod certificate;
mod check;
mod fault;
mod node;
mod open_read;
mod open_write;
mod slot;
mod value;
mod version;
mod word;
mod words;
mod write;

pub use certificate::read;
pub use fault::CertificateFault;
pub use open_read::read_open;
pub use open_write::open_text;
pub use version::Version;
pub use write::text;
