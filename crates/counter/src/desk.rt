// Keeps the tables that are entered, with where each can get stuck alone, and counts the texts that are refused.
ghost use Rattle.std.specs.Prelude.{◌≡◌, ◌+◌, IfOk, vec_len, MatchResult};
ghost use Rattle.table.specs.Table.{read_text, moves_of};
ghost use Rattle.console.specs.Texts.{found_in};
ghost use Rattle.counter.specs.Entries.{entry_of, refused_by};

use anyhow::Context;
use console::stored::{Stored, Unkept};
use search::{StuckState, search_alone};
use std::alloc::Global;
use table::{Fault, Summary};

// What is told of a table that is kept.
#[derive(Clone, Copy, PartialEq, Eq, Debug)]
pub struct Kept {
    // Counted from 0.
    pub number: usize,
    pub summary: Summary,
    // Where it can get stuck alone.
    pub stuck: Option<StuckState>,
}

#[derive(Drop)]
pub struct Desk {
    alloc: Global,
    tables: Vec<Stored>,
    refused: u64,
    texts: u64,
    ghost counted: { vec_len tables + refused ≡ texts },
}

impl Desk {
    pub fn new(alloc: Global) -> Desk
        ensures { result.texts ≡ 0 }
    {
        Desk {
            alloc,
            tables: Vec::new(alloc),
            refused: 0,
            texts: 0,
        }
    }

    pub fn kept(&self) -> usize
        ensures { result + self.now.refused ≡ self.now.texts }
    {
        self.tables.len()
    }

    pub fn refused(&self) -> u64
        ensures { result ≡ self.now.refused }
    {
        self.refused
    }

    // Keeps the table of a text under the next number, or counts the text as refused.
    pub fn enter(&mut self, text: &[u8]) -> anyhow::Result<Result<Kept, Fault>>
        ensures value { IfOk result (λ e. e ≡ entry_of (vec_len self.old.tables) (found_in text.now) (moves_of (read_text text.now))) }
        ensures texts { MatchResult result (λ _. self.new.texts ≡ self.old.texts + 1) (λ _. self.new.texts ≡ self.old.texts) }
        ensures refused { MatchResult result (λ e. self.new.refused ≡ refused_by self.old.refused e) (λ _. self.new.refused ≡ self.old.refused) }
    {
        let texts = self
            .texts
            .checked_add(1)
            .context("more texts than can be counted")?;
        match Stored::read(self.alloc, text) {
            Ok(table) => {
                let number = self.tables.len();
                let summary = table.summary;
                let stuck = search_alone(&table.table());
                self.tables.push(table)?;
                self.texts = texts;
                Ok(Ok(Kept {
                    number,
                    summary,
                    stuck,
                }))
            }
            Err(Unkept::Refused(fault)) => {
                self.refused += 1;
                self.texts = texts;
                Ok(Err(fault))
            }
            Err(Unkept::OutOfMemory(error)) => Err(error.into()),
        }
    }
}
