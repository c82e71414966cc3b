//! Certificates of a graph, each from a few letters.
//!
//! The name is the letter, and the key the digit. The bits of the signature are the SPKI under which it is genuine.

use sig_base::OutOfMemory;
use std::alloc::Global;

/// An authority, or the leaf, by its letters.
#[derive(Clone, Copy)]
pub(crate) struct Node {
    pub(crate) subject: u8,
    pub(crate) issuer: u8,
    pub(crate) key: u8,
    /// The signer; `0` is nobody.
    pub(crate) signer: u8,
    /// The path length, a digit; `-` if it is absent.
    pub(crate) length: u8,
    /// `.` if nothing is wrong, or a letter for what is.
    pub(crate) state: u8,
}

const VERSION_2: &[u8] = b"\xa0\x03\x02\x01\x01";

const VERSION_3: &[u8] = b"\xa0\x03\x02\x01\x02";

const SERIAL: &[u8] = b"\x02\x01\x01";

const ALGORITHM: &[u8] = b"\x30\x05\x06\x03\x2a\x03\x04";

const OTHER_ALGORITHM: &[u8] = b"\x30\x05\x06\x03\x2a\x03\x05";
/// A name of one letter, which follows.
const NAME: &[u8] = b"\x30\x0c\x31\x0a\x30\x08\x06\x03\x55\x04\x03\x0c\x01";
/// A key of one digit, which follows.
const KEY: &[u8] = b"\x30\x09\x30\x03\x06\x01\x2a\x03\x02\x00";

const VALID: &[u8] = b"\x30\x1e\x17\x0d230101000000Z\x17\x0d330101000000Z";

const EXPIRED: &[u8] = b"\x30\x1e\x17\x0d230101000000Z\x17\x0d230201000000Z";

const LATER: &[u8] = b"\x30\x1e\x17\x0d240101000000Z\x17\x0d330101000000Z";

const AUTHORITY: &[u8] = b"\x30\x0f\x06\x03\x55\x1d\x13\x01\x01\xff\x04\x05\x30\x03\x01\x01\xff";
/// An authority of a path length, which follows.
const LIMITED: &[u8] =
    b"\x30\x12\x06\x03\x55\x1d\x13\x01\x01\xff\x04\x08\x30\x06\x01\x01\xff\x02\x01";

const NO_AUTHORITY: &[u8] = b"\x30\x0c\x06\x03\x55\x1d\x13\x01\x01\xff\x04\x02\x30\x00";

const SIGNS_CERTIFICATES: &[u8] =
    b"\x30\x0e\x06\x03\x55\x1d\x0f\x01\x01\xff\x04\x04\x03\x02\x02\x04";

const SIGNS_TEXTS: &[u8] = b"\x30\x0e\x06\x03\x55\x1d\x0f\x01\x01\xff\x04\x04\x03\x02\x07\x80";

const SIGNS_CODE: &[u8] =
    b"\x30\x13\x06\x03\x55\x1d\x25\x04\x0c\x30\x0a\x06\x08\x2b\x06\x01\x05\x05\x07\x03\x03";

const OTHER_PURPOSE: &[u8] =
    b"\x30\x13\x06\x03\x55\x1d\x25\x04\x0c\x30\x0a\x06\x08\x2b\x06\x01\x05\x05\x07\x03\x01";

const UNKNOWN: &[u8] = b"\x30\x08\x06\x01\x2a\x01\x01\xff\x04\x00";

const NAME_CONSTRAINTS: &[u8] = b"\x30\x09\x06\x03\x55\x1d\x1e\x04\x02\x30\x00";

impl Node {
    /// The certificate of these letters: six in the order of the fields; two of a trust anchor; `l`, and two of a leaf.
    pub(crate) fn spelled(letters: &[u8]) -> Option<Node> {
        if letters.len() == 2 {
            Some(Node::anchor(letters[0], letters[1]))
        } else if letters.len() == 3 {
            Some(Node::leaf(letters[1], letters[2]))
        } else if letters.len() == 6 {
            Some(Node {
                subject: letters[0],
                issuer: letters[1],
                key: letters[2],
                signer: letters[3],
                length: letters[4],
                state: letters[5],
            })
        } else {
            None
        }
    }

    /// A trust anchor by its name and its key.
    fn anchor(subject: u8, key: u8) -> Node {
        Node {
            subject,
            issuer: subject,
            key,
            signer: key,
            length: b'-',
            state: b'.',
        }
    }

    /// A leaf by its issuer's name and the key that signed it.
    fn leaf(issuer: u8, signer: u8) -> Node {
        Node {
            subject: b'-',
            issuer,
            key: b'-',
            signer,
            length: b'-',
            state: b'l',
        }
    }

    /// Its DER.
    pub(crate) fn certificate(&self, alloc: Global) -> Result<Vec<u8>, OutOfMemory> {
        let signed = self.signed_part(alloc)?;
        let mut content = Vec::new(alloc);
        push_element(&mut content, 0x30, &signed)?;
        drop(signed);
        content.extend_from_slice(ALGORITHM)?;
        content.extend_from_slice(b"\x03\x0c\x00")?;
        push_lettered(&mut content, KEY, self.signer)?;
        let mut whole = Vec::new(alloc);
        push_element(&mut whole, 0x30, &content)?;
        Ok(whole)
    }

    /// The contents of its TBSCertificate.
    fn signed_part(&self, alloc: Global) -> Result<Vec<u8>, OutOfMemory> {
        let listed = self.extensions(alloc)?;
        let mut sequence = Vec::new(alloc);
        push_element(&mut sequence, 0x30, &listed)?;
        drop(listed);
        let mut content = Vec::new(alloc);
        self.push_front(&mut content)?;
        push_element(&mut content, 0xa3, &sequence)?;
        Ok(content)
    }

    /// Its extensions, one after the other.
    fn extensions(&self, alloc: Global) -> Result<Vec<u8>, OutOfMemory> {
        let mut listed = Vec::new(alloc);
        if self.state == b'l' {
            listed.extend_from_slice(SIGNS_CODE)?;
            return Ok(listed);
        }
        self.push_constraints(&mut listed)?;
        listed.extend_from_slice(if self.state == b'k' {
            SIGNS_TEXTS
        } else {
            SIGNS_CERTIFICATES
        })?;
        listed.extend_from_slice(self.further_extension())?;
        Ok(listed)
    }

    /// Adds its basic constraints.
    fn push_constraints(&self, into: &mut Vec<u8>) -> Result<(), OutOfMemory> {
        if self.state == b'c' {
            into.extend_from_slice(NO_AUTHORITY)?;
        } else if self.length == b'-' {
            into.extend_from_slice(AUTHORITY)?;
        } else {
            push_lettered(into, LIMITED, self.length.saturating_sub(b'0'))?;
        }
        Ok(())
    }

    /// What it has beside basic constraints and key usage.
    fn further_extension(&self) -> &'static [u8] {
        match self.state {
            b's' => SIGNS_CODE,
            b'p' => OTHER_PURPOSE,
            b'u' => UNKNOWN,
            b'n' => NAME_CONSTRAINTS,
            b't' => SIGNS_CERTIFICATES,
            _ => b"",
        }
    }

    /// Adds the elements of the TBSCertificate (RFC 5280 section 4.1) up to its extensions.
    fn push_front(&self, into: &mut Vec<u8>) -> Result<(), OutOfMemory> {
        into.extend_from_slice(self.version())?;
        into.extend_from_slice(SERIAL)?;
        into.extend_from_slice(self.inner_algorithm())?;
        push_lettered(into, NAME, self.issuer)?;
        into.extend_from_slice(self.validity())?;
        push_lettered(into, NAME, self.subject)?;
        push_lettered(into, KEY, self.key)
    }

    fn version(&self) -> &'static [u8] {
        if self.state == b'v' {
            VERSION_2
        } else {
            VERSION_3
        }
    }

    fn inner_algorithm(&self) -> &'static [u8] {
        if self.state == b'a' {
            OTHER_ALGORITHM
        } else {
            ALGORITHM
        }
    }

    fn validity(&self) -> &'static [u8] {
        match self.state {
            b'x' => EXPIRED,
            b'y' => LATER,
            _ => VALID,
        }
    }
}

/// Adds an element: its identifier octet, its length, its contents (X.690 section 8.1).
fn push_element(into: &mut Vec<u8>, tag: u8, content: &[u8]) -> Result<(), OutOfMemory> {
    let size = content.len();
    into.push(tag)?;
    if size >= 256 {
        into.push(0x82)?;
        into.push((size / 256 % 256) as u8)?;
    } else if size >= 128 {
        into.push(0x81)?;
    }
    into.push((size % 256) as u8)?;
    into.extend_from_slice(content)?;
    Ok(())
}

/// Adds bytes and the letter that follows them.
fn push_lettered(into: &mut Vec<u8>, before: &[u8], letter: u8) -> Result<(), OutOfMemory> {
    into.extend_from_slice(before)?;
    into.push(letter)?;
    Ok(())
}
