//! Bytes and counterexamples, as the cases show them.

use clauses::counterexample::Counterexample;
use judge::verdict::Verdict;
use labels::NAMES;
use std::fmt;

// More bytes are shown by a hash of them.
const SHOWN: usize = 400;

// FNV-1a of 64 bits: what it begins with, and what it multiplies by.
const BASIS: u64 = 0xcbf2_9ce4_8422_2325;

const PRIME: u64 = 0x100_0000_01b3;

/// The hash of FNV-1a, which tells much memory in 64 bits.
pub fn hash(bytes: &[u8]) -> u64 {
    bytes.iter().fold(
        BASIS,
        |hash, byte| (hash ^ *byte as u64).wrapping_mul(PRIME),
    )
}

/// Numbers with blanks between them, or `#` and the hash of many bytes.
#[derive(Clone, Copy)]
pub struct Bytes<'a>(pub &'a [u8]);

impl fmt::Display for Bytes<'_> {
    fn fmt<W: fmt::Write>(&self, f: &mut fmt::Formatter<W>) -> fmt::Result {
        if self.0.len() > SHOWN {
            return write!(f, "#{:016x}", hash(self.0));
        }
        if let Some((first, others)) = self.0.split_first() {
            write!(f, "{first}")?;
            for byte in others {
                write!(f, " {byte}")?;
            }
        }
        Ok(())
    }
}

/// The clause, the way and the name of the label where there is one, and the state.
// Not Display of `Counterexample`: it is told in words in calls and in fields here.
#[derive(Clone, Copy)]
pub struct Failing(pub Counterexample);

impl fmt::Display for Failing {
    fn fmt<W: fmt::Write>(&self, f: &mut fmt::Formatter<W>) -> fmt::Result {
        match self.0 {
            Counterexample::Move { label, state } => write!(f, "1,{},{state}", Label(label)),
            Counterexample::Rest {
                label: Some(label),
                state,
            } => write!(f, "2,{},{state}", Label(label)),
            Counterexample::Rest { label: None, state } => write!(f, "2,,,{state}"),
        }
    }
}

/// What is told with a yes: the sizes, the highest rank, and how many pairs stand.
#[derive(Clone, Copy)]
pub struct Yes(pub Verdict);

impl fmt::Display for Yes {
    fn fmt<W: fmt::Write>(&self, f: &mut fmt::Formatter<W>) -> fmt::Result {
        let (states, others) = (self.0.states, self.0.others);
        let (highest, standing) = (self.0.highest, self.0.standing);
        write!(f, "yes,{states},{others},{highest},{standing}")
    }
}

// The way and the name, with a comma between them.
#[derive(Clone, Copy)]
struct Label(u8);

impl fmt::Display for Label {
    fn fmt<W: fmt::Write>(&self, f: &mut fmt::Formatter<W>) -> fmt::Result {
        let label = self.0;
        if label < NAMES {
            write!(f, "?,{label}")
        } else {
            write!(f, "!,{}", label - NAMES)
        }
    }
}
