//! Whether a plan of these settings may be run.
ghost use Rattle.std.specs.Prelude.{◌≡◌, ◌<◌, true, IfSome};
ghost use Rattle.line_rules.specs.PlanTerms.{MayRun};

use plan_rules::Settings;

/// Whether the records after which a stop is requested are counted from 1.
fn counts_from_one(after: Option<u32>) -> bool
    ensures counts { result ≡ true → IfSome after (λ k. 0 < k) }
    ensures all { IfSome after (λ k. 0 < k) → result ≡ true }
{
    match after {
        Some(number) => number > 0,
        None => true,
    }
}

/// Whether a plan of these settings may be run: records are counted from 1, and the settings don't
/// exclude each other.
pub fn may_run(settings: &Settings) -> bool
    ensures may { result ≡ true → MayRun settings.now }
    ensures all { MayRun settings.now → result ≡ true }
{
    counts_from_one(settings.stop_after) && !settings.exclude_each_other()
}
