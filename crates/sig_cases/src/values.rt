//! Arguments that are lists of bytes, digests, schemes and checkers.
use crate::arguments::Arguments;
use crate::error::CaseError;
use sig_base::{
    AcceptedRow, Bytes, Entries, Hashes, Operation, OutOfMemory, SigningScheme, TableChecker,
};
use std::alloc::Global;

impl<'a> Arguments<'a> {
    /// The next argument as a list of bytes, as [`Arguments::hex_list`] reads it.
    pub fn entries(&mut self) -> Entries {
        let list = self.hex_list();
        match entries_of(self.alloc(), &list) {
            Ok(entries) => entries,
            Err(_) => {
                self.fail(CaseError::OutOfMemory);
                Entries::new(self.alloc())
            }
        }
    }

    /// The next argument as bytes that own their memory, in hexadecimal.
    pub fn bytes(&mut self) -> Bytes {
        Bytes::from(self.hex())
    }

    /// The next argument as 32 bytes in hexadecimal.
    pub fn digest(&mut self) -> [u8; 32] {
        let bytes = self.hex();
        match bytes.as_slice().try_into() {
            Ok(digest) => digest,
            Err(_) => {
                self.refuse();
                [0; 32]
            }
        }
    }

    /// The next argument as a list of 32 bytes each, as [`Arguments::hex_list`] reads it.
    pub fn hashes(&mut self) -> Hashes {
        let mut hashes = Hashes::new(self.alloc());
        for bytes in &self.hex_list() {
            match bytes.as_slice().try_into() {
                Ok(hash) => {
                    if hashes.push(hash).is_err() {
                        self.fail(CaseError::OutOfMemory);
                    }
                }
                Err(_) => self.refuse(),
            }
        }
        hashes
    }

    /// The next argument as the name of a signing scheme.
    pub fn signing_scheme(&mut self) -> SigningScheme {
        match SigningScheme::try_from(self.word()) {
            Ok(scheme) => scheme,
            Err(_) => {
                self.refuse();
                SigningScheme::default()
            }
        }
    }

    /// The arguments to their end as the rows of a checker, which accepts only these signatures. A row is `message
    /// SCHEME KEY MESSAGE SIGNATURE`, `prehash SCHEME KEY DIGEST SIGNATURE`, `point POINT MESSAGE SIGNATURE` and
    /// `certificate ALGORITHM SPKI TBS SIGNATURE`, where a scheme is the name of one.
    pub fn checker(&mut self) -> TableChecker {
        let mut checker = TableChecker::new(self.alloc());
        for _ in 0..u64::MAX {
            if self.is_empty() {
                break;
            }
            let row = self.row();
            if checker.push(row).is_err() {
                self.fail(CaseError::OutOfMemory);
            }
        }
        checker
    }

    /// The next arguments as a row of a checker.
    fn row(&mut self) -> AcceptedRow {
        let operation = self.operation();
        let scheme = self.scheme(operation);
        AcceptedRow {
            operation,
            scheme,
            key: self.bytes(),
            message: self.bytes(),
            signature: self.bytes(),
        }
    }

    fn operation(&mut self) -> Operation {
        match self.word() {
            "message" => Operation::Message,
            "prehash" => Operation::Prehash,
            "point" => Operation::Point,
            "certificate" => Operation::Certificate,
            _ => {
                self.refuse();
                Operation::Point
            }
        }
    }

    /// Reads the scheme of a row of this operation: a name, the bytes of an algorithm, or nothing.
    fn scheme(&mut self, operation: Operation) -> Bytes {
        match operation {
            Operation::Message | Operation::Prehash => self.name(),
            Operation::Certificate => self.bytes(),
            Operation::Point => Bytes::from(Vec::new(self.alloc())),
        }
    }

    /// The bytes of the next argument as it is.
    fn name(&mut self) -> Bytes {
        match Bytes::copy_of(self.alloc(), self.word().as_bytes()) {
            Ok(name) => name,
            Err(_) => {
                self.fail(CaseError::OutOfMemory);
                Bytes::from(Vec::new(self.alloc()))
            }
        }
    }
}

fn entries_of(alloc: Global, list: &[Vec<u8>]) -> Result<Entries, OutOfMemory> {
    let mut entries = Entries::new(alloc);
    for bytes in list {
        entries.push(bytes)?;
    }
    Ok(entries)
}
