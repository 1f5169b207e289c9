//! What names say of numbers.

ghost use Rattle.std.specs.Prelude.{length};
ghost use Rattle.pool_settings.specs.Law.{AreOneToOne};
ghost use Rattle.pool_settings.specs.Names as names;
ghost use Rattle.pool_settings.specs.Settings.{AreSettings};
ghost use Rattle.pool_settings.specs.Slots as slots;

use crate::Settings;

/// The law of names, which does nothing that is seen: functions, machines and slots have one name each, by which their numbers
/// are found, and no name that is found is another's. So a worker's name in a log is a slot, and each slot has one such name.
pub fn names_are_one_to_one(settings: &Settings)
    ensures functions { let all = settings.now.functions in AreOneToOne (length all) (names.name_at all) (names.place_of all) }
    ensures machines { let all = settings.now.machines in AreOneToOne (length all) (names.name_at all) (names.place_of all) }
    ensures slots { let p = settings.now in AreOneToOne (slots.slots p) (slots.worker_name p) (slots.slot_named p) }
{
    let _functions = settings.functions();
}

impl Settings {
    /// What all settings keep: a law, which does nothing that is seen. Callers call it where a proof needs these facts.
    pub fn facts(&self)
        ensures { AreSettings self.now }
    {
        let _functions = self.functions();
    }
}
