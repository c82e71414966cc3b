//! A request of `log` that needs no input: a log of made entries, and the proof that the middle one is in it.
//!
//! The request for the log of one entry, long texts cut short:
//!
//! ```text
//! {"accepted":[{"key":"a2V5","message":"ZGVtbwox..","operation":"message","scheme":"ECDSA_P256_SHA256_ASN1",
//!  "signature":"c2ln"}],"checkpoint":"demo\n1\nOVqgZKpM..TVY=\n\n\n— demo AAAAAXNpZw==\n","entries":["TDEyMzQ1Ng=="],
//!  "entry":"TDEyMzQ1Ng==","hashes":[],"key":"a2V5","logIndex":0,"rootHash":"395aa064..",
//!  "scheme":"ECDSA_P256_SHA256_ASN1","treeSize":1}
//! ```
//!
//! The layer above uses two facts: [`DemoLog::new`] makes the log that is defined, `demo_log`, and [`DemoLog::request`]
//! writes its request, whose document and meaning are defined.
#![tactic(auto)]

mod log;
mod request;
mod written;

pub use log::{DemoLog, MOST_ENTRIES};
