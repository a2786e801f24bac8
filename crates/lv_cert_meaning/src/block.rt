//! The clauses of a block, to which each of its lines adds its own.
#![tactic(auto)]

ghost use Rattle.std.specs.Prelude.{◌≡◌, [], IfOk, OnOk, OnErr, map, if◌then◌else◌};
ghost use Rattle.lv_cert_meaning.specs.Following.{literal_of};
ghost use Rattle.lv_cert_meaning.specs.Blocks.{with_clause, follows_in};

use crate::following::derived;
use lv_base::Lit;
use lv_cert::Literal;
use lv_clauses::{Clause, Marks};
use lv_system::StepSystem;
use std::alloc::{AllocError, Global};
use std::marker::Model;

/// The clauses of a model's system, which are not copied, and behind them the block's own.
#[derive(Drop)]
pub struct Block<'a> {
    alloc: Global,
    system: &'a StepSystem,
    own: Vec<Clause>,
    marks: Marks,
}

impl<'a> Model for Block<'a> {
    ghost use Rattle.std.specs.Prelude.{◌≡◌};
    ghost use Rattle.lv_clauses.specs.Marks.{nothing};
    ghost use Rattle.lv_cert_meaning.specs.Blocks.{BlockValue};

    ghost Value = { BlockValue };

    ghost view = { λ b. record { system = b.system.now; own = b.own.items } };

    ghost invariant = { λ b. b.marks ≡ nothing b.system.now.set.bools };
}

impl<'a> Block<'a> {
    /// A block with no clauses but the system's.
    pub fn new(alloc: Global, system: &'a StepSystem) -> Result<Block<'a>, AllocError>
        ensures { IfOk result (λ block. block ≡ record { system = system.now; own = [] }) }
    {
        Ok(Block {
            alloc,
            system,
            own: Vec::new(alloc),
            marks: Marks::new(alloc, system.clauses().bools())?,
        })
    }

    /// Begins the next block of the same system. Takes no memory.
    pub fn restart(&mut self)
        ensures { self.new ≡ record { system = self.old.system; own = [] } }
    {
        self.own.clear();
    }

    /// Adds a clause that is given, which isn't looked at here. After want of memory the block is as it was.
    pub fn give(&mut self, clause: &[Lit]) -> Result<(), AllocError>
        ensures given { OnOk result (self.new ≡ with_clause self.old clause.now) }
        ensures kept { OnErr result (self.new ≡ self.old) }
    {
        self.own.push(Clause::from_slice(self.alloc, clause)?)?;
        Ok(())
    }

    /// Whether a line follows by its hints, which are numbers of clauses from 1. The clause of one that does is added. After
    /// want of memory the block is as it was.
    pub fn derive(&mut self, literals: &[Literal], hints: &[u128]) -> Result<bool, AllocError>
        ensures good { IfOk result (λ good. good ≡ follows_in self.old literals.now hints.now) }
        ensures added { IfOk result (λ good. self.new ≡ (if good then with_clause self.old (map literal_of literals.now) else self.old)) }
        ensures kept { OnErr result (self.new ≡ self.old) }
    {
        let found = derived(
            self.alloc,
            self.system,
            self.own.as_slice(),
            literals,
            hints,
            &mut self.marks,
        );
        self.marks.clear();
        match found? {
            Some(clause) => {
                self.own.push(clause)?;
                Ok(true)
            }
            None => Ok(false),
        }
    }
}
