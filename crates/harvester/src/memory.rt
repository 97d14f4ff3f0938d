//! A `Fetch` from memory, without a network.
ghost use Rattle.std.specs.Prelude.{◌≡◌, ◌++◌, ◌∷◌, [], IfOk, OnErr, OnOk, None, Some, option_copied};
ghost use Rattle.harvester.specs.Memory.{answer_in};

use crate::faults::FetchFault;
use crate::fetches::{Answer, Fetch};
use memento_time::{Clean, Items, NoMemory, Octets};
use std::alloc::{AllocGlobal, Global};
use std::marker::Model;
use std::net::{Net, TcpListener, TcpStream};
use std::random::RandomSource;
use std::sync::Wait;
use std::time::Clock;

/// Answers from rows of URLs and answers, for tests. A URL without a row is `Failed`. A contract sees the rows.
#[derive(Drop)]
pub struct MemoryFetch {
    rows: Vec<(Clean, Answer)>,
}

impl Model for MemoryFetch {
    ghost use Rattle.std.specs.Prelude.{List};
    ghost use Rattle.harvester.specs.Answers.{Entry};

    ghost Value = { List Entry };

    ghost view = { λ memory. memory.rows.items };
}

impl MemoryFetch {
    /// A fetch without rows. It fails for each URL.
    pub fn new(alloc: Global) -> MemoryFetch
        ensures { result ≡ [] }
    {
        MemoryFetch {
            rows: Vec::new(alloc),
        }
    }

    /// Adds a row: the answer for a URL. If a URL has several rows, the first one is answered.
    pub fn add(&mut self, url: Clean, answer: Answer) -> Result<(), NoMemory>
        ensures ok { OnOk result (self.new ≡ self.old ++ (url, answer) ∷ []) }
        ensures err { OnErr result (self.new ≡ self.old) }
    {
        self.rows.push((url, answer))?;
        Ok(())
    }
}

fn find<'a>(rows: &'a [(Clean, Answer)], url: &Clean) -> Option<&'a Answer>
    ensures { option_copied result ≡ answer_in rows.now url.now }
{
    for row in rows {
        if *url == row.0 {
            return Some(&row.1);
        }
    }
    None
}

fn copy_values(alloc: Global, values: &[Octets]) -> Result<Vec<Octets>, NoMemory>
    ensures { IfOk result (λ copies. copies.items ≡ values.now) }
{
    let mut copies = Vec::new(alloc);
    for value in values {
        copies.push(value.try_clone()?)?;
    }
    Ok(copies)
}

fn copy_answer(alloc: Global, answer: &Answer) -> Result<Answer, NoMemory>
    ensures { IfOk result (λ copy. copy ≡ answer.now) }
{
    Ok(Answer {
        status: answer.status,
        encoding: Items::of(copy_values(alloc, answer.encoding.as_slice())?),
        retry_after: Items::of(copy_values(alloc, answer.retry_after.as_slice())?),
        body: answer.body.try_clone()?,
    })
}

impl Fetch for MemoryFetch {
    ghost use Rattle.std.specs.Prelude.{◌≡◌, Some, None};
    ghost use Rattle.harvester.specs.Memory.{answer_in};
    ghost use Rattle.harvester.specs.declared.faults.FetchFault.TheVariants.{Failed};

    ghost answers = { λ memory url answer. answer_in memory url ≡ Some answer };

    ghost faults = { λ memory url fault. (answer_in memory url ≡ None) × (fault ≡ Failed) };

    fn fetch<R>(&self, rt: &R, url: &Clean) -> Result<Answer, FetchFault>
    where
        R: Wait
            + Clock
            + Net<Listener = TcpListener, Stream = TcpStream>
            + RandomSource
            + AllocGlobal,
    {
        let Some(answer) = find(&self.rows, url) else {
            return Err(FetchFault::Failed);
        };
        match copy_answer(rt.alloc(), answer) {
            Ok(copy) => Ok(copy),
            Err(NoMemory) => Err(FetchFault::NoMemory),
        }
    }
}
