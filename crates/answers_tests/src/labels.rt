//! Facts claimed of a valve, and what is found. Its variables are the mode, the command, the inflow and the outflow, and the
//! inflow is present, whatever is claimed.
ghost use Rattle.lv_system.specs.System.{IsSystemOf};

use crate::asked::{Asked, answers};
use lv_base::{Seq, ValId, VarId};
use lv_labels::{FactLabels, Labelling};
use lv_model::{Model, State};
use lv_reply::{Label, Moment};
use lv_system::StepSystem;
use std::alloc::{AllocError, Global};
use test_texts::VALVE;

const CLOSED: Label = Label {
    moment: Moment::Now,
    var: VarId(0),
    val: ValId(0),
};

const COMMANDED: Label = Label {
    moment: Moment::Now,
    var: VarId(1),
    val: ValId(1),
};

const FLOWS_IN: Label = Label {
    moment: Moment::Now,
    var: VarId(2),
    val: ValId(1),
};

const NOTHING_OUT: Label = Label {
    moment: Moment::Now,
    var: VarId(3),
    val: ValId(0),
};

const FLOWS_OUT: Label = Label {
    moment: Moment::Now,
    var: VarId(3),
    val: ValId(1),
};

const FLOWS_IN_NEXT: Label = Label {
    moment: Moment::Next,
    var: VarId(2),
    val: ValId(1),
};

/// Claims the fact that the label says; whether there is such a value.
fn claim(facts: &mut FactLabels, fact: Label) -> bool {
    if facts.has_value(fact.moment, fact.var, fact.val) {
        facts.claim(fact.moment, fact.var, fact.val);
        return true;
    }
    false
}

/// Takes one claim back.
fn release(facts: &mut FactLabels, fact: Label) -> bool {
    if facts.has_value(fact.moment, fact.var, fact.val) {
        facts.release(fact.moment, fact.var, fact.val);
        return true;
    }
    false
}

/// What is done before the question.
pub enum Deed {
    Nothing,
    Claim(Label),
    Release(Label),
}

/// A deed, whether it is assumed then that the valve is closed, and the labels that are found, None for a contradiction.
pub struct Row {
    deed: Deed,
    closed: bool,
    wanted: Option<&'static [Label]>,
}

/// Whether the deed could be done.
fn is_done(facts: &mut FactLabels, deed: &Deed) -> bool {
    match deed {
        Deed::Nothing => true,
        Deed::Claim(fact) => claim(facts, *fact),
        Deed::Release(fact) => release(facts, *fact),
    }
}

/// Whether this is what was told.
fn is_wanted(told: &Labelling, wanted: Option<&[Label]>) -> bool {
    match told {
        Labelling::Labels(labels) => match wanted {
            Some(wanted) => labels.as_slice() == wanted,
            None => false,
        },
        Labelling::Contradiction => wanted.is_none(),
    }
}

/// Whether this is what is found. It isn't where the part doesn't have the state's mode.
fn finds(
    alloc: Global,
    facts: &mut FactLabels,
    state: Option<&State>,
    wanted: Option<&[Label]>,
) -> Result<bool, AllocError> {
    if facts.has_modes(state) {
        let told = facts.tell(alloc, state)?;
        return Ok(is_wanted(&told, wanted));
    }
    Ok(false)
}

/// Whether one row after the other is right.
fn rows_are_right(
    alloc: Global,
    facts: &mut FactLabels,
    closed: &State,
    rows: &[Row],
) -> Result<bool, AllocError> {
    for row in rows {
        let done = is_done(facts, &row.deed);
        let state = if row.closed { Some(closed) } else { None };
        let found = finds(alloc, facts, state, row.wanted)?;
        if !done || !found {
            return Ok(false);
        }
    }
    Ok(true)
}

/// Whether the rows are right of the valve without facts.
pub fn are_right(
    alloc: Global,
    model: &Model,
    system: &StepSystem,
    rows: &[Row],
) -> Result<bool, AllocError>
    requires { IsSystemOf model.now system.now }
{
    let closed = State {
        modes: Seq::from_slice(alloc, &[ValId(0)])?,
    };
    let mut facts = FactLabels::new(alloc, model, system)?;
    let right = rows_are_right(alloc, &mut facts, &closed, rows);
    drop(facts);
    right
}

const OBSERVED_TWICE: &Asked = &Asked::Labels(&[
    Row {
        deed: Deed::Nothing,
        closed: false,
        wanted: Some(&[FLOWS_IN, FLOWS_IN_NEXT]),
    },
    Row {
        deed: Deed::Claim(FLOWS_OUT),
        closed: false,
        wanted: Some(&[FLOWS_IN, FLOWS_OUT, FLOWS_IN_NEXT]),
    },
    Row {
        deed: Deed::Claim(FLOWS_OUT),
        closed: false,
        wanted: Some(&[FLOWS_IN, FLOWS_OUT, FLOWS_IN_NEXT]),
    },
    Row {
        deed: Deed::Release(FLOWS_OUT),
        closed: false,
        wanted: Some(&[FLOWS_IN, FLOWS_OUT, FLOWS_IN_NEXT]),
    },
    Row {
        deed: Deed::Release(FLOWS_OUT),
        closed: false,
        wanted: Some(&[FLOWS_IN, FLOWS_IN_NEXT]),
    },
]);

/// An observation that is made twice stands until it is released twice.
#[test]
fn a_fact_observed_twice(rt: HostRuntime) -> Result<(), AllocError> {
    let right = answers(rt.alloc(), VALVE, OBSERVED_TWICE)?;
    assert!(rt; right);
    Ok(())
}

const CONTRADICTED: &Asked = &Asked::Labels(&[
    Row {
        deed: Deed::Claim(NOTHING_OUT),
        closed: false,
        wanted: Some(&[FLOWS_IN, NOTHING_OUT, FLOWS_IN_NEXT]),
    },
    Row {
        deed: Deed::Claim(FLOWS_OUT),
        closed: false,
        wanted: None,
    },
    Row {
        deed: Deed::Release(NOTHING_OUT),
        closed: false,
        wanted: Some(&[FLOWS_IN, FLOWS_OUT, FLOWS_IN_NEXT]),
    },
]);

/// Two values of one variable contradict each other, until one is released.
#[test]
fn a_contradiction(rt: HostRuntime) -> Result<(), AllocError> {
    let right = answers(rt.alloc(), VALVE, CONTRADICTED)?;
    assert!(rt; right);
    Ok(())
}

const ASSUMED: &Asked = &Asked::Labels(&[
    Row {
        deed: Deed::Claim(COMMANDED),
        closed: false,
        wanted: Some(&[COMMANDED, FLOWS_IN, FLOWS_IN_NEXT]),
    },
    Row {
        deed: Deed::Nothing,
        closed: true,
        wanted: Some(&[CLOSED, COMMANDED, FLOWS_IN, NOTHING_OUT, FLOWS_IN_NEXT]),
    },
    Row {
        deed: Deed::Nothing,
        closed: false,
        wanted: Some(&[COMMANDED, FLOWS_IN, FLOWS_IN_NEXT]),
    },
    Row {
        deed: Deed::Claim(FLOWS_OUT),
        closed: true,
        wanted: None,
    },
    Row {
        deed: Deed::Nothing,
        closed: false,
        wanted: Some(&[COMMANDED, FLOWS_IN, FLOWS_OUT, FLOWS_IN_NEXT]),
    },
]);

/// The mode of a state is assumed for one answer, be it a contradiction. Of the moves of the commanded valve more than one is
/// left.
#[test]
fn a_state_assumed(rt: HostRuntime) -> Result<(), AllocError> {
    let right = answers(rt.alloc(), VALVE, ASSUMED)?;
    assert!(rt; right);
    Ok(())
}
