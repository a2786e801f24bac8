//! What it costs to command a control.
#![tactic(auto)]

ghost use Rattle.std.specs.Prelude.{◌≡◌};
ghost use Rattle.std.specs.List.{find};
ghost use Rattle.std.specs.Option.{option_copied};
ghost use Rattle.lv_model.specs.Prices.{is_price_of, price_of};

use crate::model::Model;
use crate::plant::Price;
use lv_base::{Cost, ValId, VarId};

/// Whether the price is of this value of this control.
pub fn is_price_of(price: &Price, control: VarId, value: ValId) -> bool
    ensures { result ≡ is_price_of control.0 value.0 price.now }
{
    price.control.0 == control.0 && price.value.0 == value.0
}

/// The first price of this value of this control.
fn find_price(prices: &[Price], control: VarId, value: ValId) -> Option<&Price>
    ensures { option_copied result ≡ find (is_price_of control.0 value.0) prices.now }
{
    prices.iter().find(|p| is_price_of(p, control, value))
}

impl Model {
    /// What it costs to command the control to the value: nothing for its resting value, the first of its domain, else
    /// what its price says, or 1. Takes no memory.
    pub fn price(&self, control: VarId, value: ValId) -> Cost
        ensures { result.0 ≡ price_of self.now control.0 value.0 }
    {
        if value.0 == 0 {
            return Cost(0);
        }
        match find_price(self.plant().prices.as_slice(), control, value) {
            Some(price) => price.cost,
            None => Cost(1),
        }
    }
}
