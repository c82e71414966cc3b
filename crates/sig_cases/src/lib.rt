//! The frame of a program of cases: a table of cases is data, and a program that reads it is proved once, however many
//! cases there are.
//!
//! The program reads lines from standard input and writes one line for each. A line is the name of a call and its
//! arguments, each after one space; the line for it is what the call returns. An empty line and one that begins with
//! `#` are written as they are, so that a table and what is expected of it can be read side by side:
//!
//! ```text
//! # FIPS 180-4: one block     # FIPS 180-4: one block
//! sha256 616263               ok ba7816bf8f01cfea414140de5dae2223b00361a396177a9cb410ff61f20015ad
//! ```
//!
//! [`Answer`] writes a result: `ok` and its values, each after one space, or the Debug text of an error. [`Arguments`]
//! reads the arguments: bytes in hexadecimal or in base64, a list of bytes, an integer, a text in percent-encoding, a
//! checker of signatures, whose questions a [`Recorder`] keeps, or the rest of the line. `-` stands for no bytes, for
//! the empty text and for the empty list. A line that the program cannot read gives `bad line`; no stored output has
//! one. Out of memory and a fault of a stream end the program with a status that is not 0.
//!
//! ```text
//! struct HashCases;
//!
//! impl Cases for HashCases {
//!     fn answer(call: &str, arguments: &mut Arguments<'_>, answer: &mut Answer) {
//!         match call {
//!             "sha256" => {
//!                 let bytes = arguments.hex();
//!                 answer.ok();
//!                 answer.hex(&sha256(&bytes));
//!             }
//!             _ => arguments.refuse(),
//!         }
//!     }
//! }
//!
//! fn main(rt: HostRuntime) -> anyhow::Result<()> {
//!     run::<HashCases>(&rt)
//! }
//! ```
#![tactic(auto)]

mod answer;
mod arguments;
mod decode;
mod error;
mod program;
mod recorder;
mod values;

pub use answer::Answer;
pub use arguments::Arguments;
pub use program::{Cases, run};
pub use recorder::Recorder;
