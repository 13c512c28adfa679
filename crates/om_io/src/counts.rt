// What was asked of a store, and what failed.
ghost use Rattle.std.specs.Prelude.{◌≡◌, Some};
ghost use Rattle.om_io.specs.Causes.{raised};

/// The counts of a store, which stand still at the last value of a u64.
#[derive(Drop)]
pub struct Counts {
    /// How many loads were asked for.
    pub loads: u64,
    /// How many saves were asked for.
    pub saves: u64,
    /// How many loads failed.
    pub failed_loads: u64,
    /// How many saves failed.
    pub failed_saves: u64,
    /// The name of the last load that failed.
    pub last_failed: Option<Vec<u8>>,
}

impl Counts {
    ghost use Rattle.om_io.specs.StoreCounts.{IsFresh};

    /// Nothing asked for so far.
    pub fn new() -> Counts
        ensures { IsFresh result }
    {
        Counts {
            loads: 0,
            saves: 0,
            failed_loads: 0,
            failed_saves: 0,
            last_failed: None,
        }
    }

    /// A load is asked for.
    pub fn ask_load(&mut self)
        ensures { self.new ≡ record self.old { loads = raised self.old.loads } }
    {
        self.loads = self.loads.saturating_add(1);
    }

    /// A save is asked for.
    pub fn ask_save(&mut self)
        ensures { self.new ≡ record self.old { saves = raised self.old.saves } }
    {
        self.saves = self.saves.saturating_add(1);
    }

    /// The load of this name failed.
    pub fn fail_load(&mut self, name: Vec<u8>)
        ensures { self.new ≡ record self.old { failed_loads = raised self.old.failed_loads; last_failed = Some name } }
    {
        self.failed_loads = self.failed_loads.saturating_add(1);
        self.last_failed = Some(name);
    }

    /// A save failed.
    pub fn fail_save(&mut self)
        ensures { self.new ≡ record self.old { failed_saves = raised self.old.failed_saves } }
    {
        self.failed_saves = self.failed_saves.saturating_add(1);
    }
}
