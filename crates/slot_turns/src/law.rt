//! What follows for slots that have come.

ghost use Rattle.pool_settings.specs.Settings.{Settings};
ghost use Rattle.slot_turns.specs.Law as spec;

/// The law of turns, which does nothing. Callers call it where a proof needs these facts. Slots that come one after the other, as many as
/// there are at most, have come together: none of them twice, and each once if they are as many as there are. Those that come after them go
/// on where they ended: the two together are a beginning of the order gone through twice, so none is passed over.
pub fn slots_take_turns()
    ensures none { spec.NoneHasCome }
    ensures one_more { spec.OneMoreComes }
    ensures as_many { spec.AsManyCome }
    ensures slot { (settings : Settings) → spec.EachIsASlot settings }
    ensures again { (settings : Settings) → spec.EachComesAgain settings }
    ensures twice { (settings : Settings) → spec.NoneComesTwice settings }
    ensures once { (settings : Settings) → spec.EachComesOnce settings }
    ensures passed { spec.NoneIsPassedOver }
{}
