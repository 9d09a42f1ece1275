//! The laws of upgraded scripts.
ghost use Rattle.script_reader.specs.UpgradeLaw.{UpgradeMeansPlan, UpgradeIsShort};

/// The upgraded script of a plan means that plan in version 2: each job, session, patience and command is kept,
/// and each instrument has its number.
pub fn upgrade_means_plan()
    ensures { UpgradeMeansPlan }
{}

/// The upgraded script of a plan has at most 3696678 bytes, so it is never too long to be read: its header has 6, the
/// line of a job at most 21, the first and the last line of a session 28 together, and a command 28.
pub fn upgrade_is_short()
    ensures { UpgradeIsShort }
{}
