ghost use Rattle.std.specs.Prelude.{◌≡◌, ◌≤◌};
ghost use Rattle.keep_jobs.specs.Job.{settings_view};
ghost use Rattle.keep_options.specs.Option.{options_view};
ghost use Rattle.keep_command.specs.Running.{settings_of};

use keep_jobs::{Cut, Settings};
use keep_operators::Order;
use keep_options::Options;
use keep_script::Setup;
use std::alloc::Global;

/// What a run goes by.
#[derive(Clone, Copy)]
pub(crate) struct Terms<'a> {
    pub alloc: Global,
    pub options: Options<'a>,
    settings: Settings,
    ghost by_options: { settings_view settings ≡ settings_of (options_view options) },
    ghost few: { options.crew ≤ 8 },
}

impl<'a> Terms<'a> {
    /// By these options.
    pub fn new(alloc: Global, options: Options<'a>) -> Terms<'a>
        requires some { 1 ≤ options.cut }
        requires most { options.cut ≤ 8388608 }
        requires few { options.crew ≤ 8 }
        ensures { options_view result.options ≡ options_view options.entry }
    {
        let settings = Settings {
            cut: Cut::after(options.cut),
            now: options.now,
        };
        Terms {
            alloc,
            options,
            settings,
        }
    }

    /// What the script goes by.
    pub fn setup(self) -> Setup
        ensures { settings_view result.settings ≡ settings_of (options_view self.entry.options) }
    {
        Setup {
            alloc: self.alloc,
            settings: self.settings,
        }
    }

    /// What the crew is asked for.
    pub fn order(self) -> Order<'a>
        ensures size { result.size ≡ self.entry.options.crew }
        ensures few { result.size ≤ 8 }
        ensures settings { settings_view result.settings ≡ settings_of (options_view self.entry.options) }
        ensures time { result.time.now ≡ self.entry.options.time.now }
    {
        Order {
            alloc: self.alloc,
            size: self.options.crew,
            settings: self.settings,
            time: self.options.time,
        }
    }
}
