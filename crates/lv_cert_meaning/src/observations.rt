//! An observation by its numbers: an observable, and one of its values.
#![tactic(auto)]

ghost use Rattle.std.specs.Prelude.{◌≡◌, ◌-◌, ◌<◌, Some, None, IfSome, slice_index_or};
ghost use Rattle.lv_model.specs.Lists.{sizes};
ghost use Rattle.lv_meaning.specs.Ranges.{ObservationFits};
ghost use Rattle.lv_model_names.specs.Lists.{lists_of};
ghost use Rattle.lv_cert_meaning.specs.Counts.{IsCountsOf};
ghost use Rattle.lv_cert_meaning.specs.Stated as Stated;

use crate::counting::place_of;
use crate::counts::Counts;
use lv_base::{ValId, VarId};
use lv_meaning::Observation;
use lv_model::Model;
use lv_model_names::Lists;
use lv_model_names::names::is_observable;

/// The observation that a variable's number and a value's are, if they are one.
pub fn observation_of(
    model: &Model,
    lists: &Lists,
    counts: &Counts,
    x: u128,
    v: u128,
) -> Option<Observation>
    requires counts { IsCountsOf model.now counts.now }
    requires lists { lists.now ≡ lists_of model.now }
    ensures observation { result ≡ Stated.observation_of model.now x v }
    ensures within { IfSome result (λ o. o.val.0 < slice_index_or (sizes model.now) o.var.0 0) }
    ensures fits { IfSome result (ObservationFits model.now) }
{
    let var = place_of(counts.values.len(), x)?;
    if !is_observable(lists.classes.as_slice(), VarId(var)) {
        return None;
    }
    let val = place_of(counts.values[var as usize], v)?;
    Some(Observation {
        var: VarId(var),
        val: ValId(val),
    })
}
