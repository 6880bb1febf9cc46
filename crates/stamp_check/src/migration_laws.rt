//! Laws of migration. Each function does nothing; its contract is the law, over the definitions
//! alone.
ghost use Rattle.stamp_check.specs.MigrationLaws.{RespellingIsOfStamps, LinearizedMigrates, MigrationKeepsLinearized, MigrationKeepsFaults, MigrationKeepsVerdicts};

/// A migrated stamp is what `respell` answers. It has the same kind, version and count in layout 2,
/// and a number that is none there becomes 0.
pub fn respelling_is_of_stamps()
    ensures { RespellingIsOfStamps }
{}

/// A linearized history can be migrated, and the migrated one is linearized.
pub fn linearized_migrates()
    ensures { LinearizedMigrates }
{}

/// A migrated history is linearized exactly where the old one is.
pub fn migration_keeps_linearized()
    ensures { MigrationKeepsLinearized }
{}

/// A migrated history has the first fault of the old one, at the same entry.
pub fn migration_keeps_faults()
    ensures { MigrationKeepsFaults }
{}

/// A check says the same of a history and of the migrated one.
pub fn migration_keeps_verdicts()
    ensures { MigrationKeepsVerdicts }
{}
