//! Small texts, with the verdict that an independent reference program gives.

use lv_base::{PartId, ValId, VarId};
use lv_checker::{model_of, printed_model};
use lv_model::Model;
use lv_reader::{ModelCode, ModelFault};
use std::alloc::{AllocError, Global};
use test_texts::VALVE;

#[test]
fn reads_a_valve(rt: HostRuntime) -> Result<(), AllocError> {
    let read = model_of(rt.alloc(), VALVE);
    assert!(rt; read.is_ok());
    let Ok(model) = read else {
        return Ok(());
    };
    let plant = model.plant();
    assert!(rt; plant.name.as_slice() == b"valve".as_slice());
    assert!(rt; plant.domains.len() == 2 && plant.parts.len() == 1 && plant.laws.len() == 1);
    let mut lines = Vec::new(rt.alloc());
    for t in plant.types.as_slice() {
        for m in t.moves.as_slice() {
            lines.push(m.line)?;
        }
    }
    assert!(rt; lines.as_slice() == &[1, 0, 3, 6, 2, 0, 4, 5, 0, 0][..]);
    Ok(())
}

/// Whether the text is printed so.
fn is_printed_so(alloc: Global, text: &[u8], canonical: &[u8]) -> bool {
    match printed_model(alloc, text) {
        Ok(printed) => printed.as_slice() == canonical,
        Err(_) => false,
    }
}

#[test]
fn prints_a_model(rt: HostRuntime) {
    let alloc = rt.alloc();
    let small = b"version 2\nmodel model\ntype t\nmode m\nend\npart p t m\n";
    assert!(rt; is_printed_so(alloc, b"type t\nmode m # one\nend\npart  p t m", small));
    assert!(rt; is_printed_so(alloc, small, small));
}

/// Whether the text is refused for that, when it is read and when it is printed.
fn is_refused_for(alloc: Global, text: &[u8], code: ModelCode, line: usize) -> bool {
    let fault = ModelFault::At { code, line };
    let read = match model_of(alloc, text) {
        Ok(_) => false,
        Err(found) => found == fault,
    };
    let printed = match printed_model(alloc, text) {
        Ok(_) => false,
        Err(found) => found == fault,
    };
    read && printed
}

#[test]
fn what_cannot_be_read_is_told_before_what_cannot_be(rt: HostRuntime) {
    let alloc = rt.alloc();
    let unread = b"type t\nmode m\nmode m\nend\nwrong\n";
    assert!(rt; is_refused_for(alloc, unread, ModelCode::UnknownStatement, 5));
    let twice = b"type t\nmode m\nmode m\nmode m\nend\n";
    assert!(rt; is_refused_for(alloc, twice, ModelCode::NameInUse, 3));
}

/// The first move from the first mode, and how many there are; what the command to open costs, and what rest does.
fn moves_and_prices(model: &Model) -> ((u32, u32), (u64, u64)) {
    let (first, count) = model.moves_from(PartId(0), ValId(0));
    let open = model.price(VarId(1), ValId(1));
    let rest = model.price(VarId(1), ValId(0));
    ((first.0, count), (open.0, rest.0))
}

/// Whether the lists over the model's variables and parts are those of one valve.
fn lists_are_those_of_one_valve(alloc: Global, model: &Model) -> Result<bool, AllocError> {
    let sizes = model.sizes(alloc)?;
    let controls = model.controls(alloc)?;
    let counts = model.move_counts(alloc)?;
    Ok(
        sizes.as_slice() == &[4, 3, 2, 2][..]
            && controls.len() == 1
            && counts.as_slice() == &[4 + 4 + 1 + 1][..],
    )
}

#[test]
fn tells_moves_prices_and_lists(rt: HostRuntime) -> Result<(), AllocError> {
    let alloc = rt.alloc();
    let mut text = Vec::from_slice(alloc, VALVE)?;
    text.extend_from_slice(b"price v.cmd = open 7\n")?;
    let read = model_of(alloc, text.as_slice());
    assert!(rt; read.is_ok());
    let Ok(model) = read else {
        return Ok(());
    };
    assert_eq!(rt; moves_and_prices(&model), ((0, 4), (7, 0)));
    assert!(rt; lists_are_those_of_one_valve(alloc, &model)?);
    Ok(())
}
