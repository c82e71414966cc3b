//! DER, the encoding of certificates and keys: elements of one identifier octet with lengths of at most four octets
//! after the first, read and written exactly (X.690 sections 8.1 and 10.1), and texts of times.
//!
//! An element:
//!
//! ```text
//! 30 03 02 01 05        SEQUENCE of 3 bytes: INTEGER of 1 byte, 5
//! |  |  +------+ contents octets
//! |  +- length octets (section 8.1.3): 03; 81 80 is 128, 82 01 00 is 256
//! +---- identifier octet (section 8.1.2): class, constructed or not, number
//! ```
#![tactic(auto)]

mod digits;
mod element;
mod iter;
mod key_info;
pub mod laws;
mod length;
mod moment;
pub mod oid;
mod out;
mod place;
mod reader;
mod stamp;
pub mod tag;
mod taking;
mod time;
mod walk;
mod write;

pub use element::{Element, read_all, read_element};
pub use iter::Children;
pub use key_info::{
    AlgorithmPlaces, KeyInfoPlaces, read_algorithm, read_bits, read_key_info, whole_key_info,
};
pub use out::DerOut;
pub use place::Place;
pub use reader::Reader;
pub use stamp::rfc3339_second;
pub use taking::{take_any, take_tag, take_whole};
pub use time::time_of;
pub use walk::children;
pub use write::{DerWriteError, write_element, write_short};
