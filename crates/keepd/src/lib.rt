//! keepd for whoever calls it from a program of one's own: a repository under numbered changes, with filters, vetoes and
//! watches of one's own, on a shelf of one's own. `keep_caller` is such a program.
#![tactic(auto)]

// The book, and what it is asked.
pub use keep_book::{Book, NotArmed, TakenBack};
pub use keep_change::{Change, Outline, Planned, StoredFile, What};
pub use keep_journal::{History, Request, Told};
pub use keep_ledger::{Ledger, NotOpened, OpenError, Refusal};
pub use keep_names::{FileName, Id, Kind};
pub use keep_repo::{Bytes, Facet, Repo};
pub use keep_rope::Rope;

// Jobs, their planners, and what a repository gives back.
pub use keep_jobs::{BackupFacts, Cut, Job, Settings, Task, plan};
pub use keep_labels::{Count, Edit, Policy};
pub use keep_plan::PlanError;
pub use keep_read::{Finding, RestoreError, RestoredFiles, audit, restore};
pub use keep_snap::SnapFacts;
pub use keep_view::View;

// Stored questions, each beside the rule that it answers by.
pub use keep_hooks::{
    AskOutline, CountOutline, Limit, Measure, Veto, Watch, files_written, snapshots_dropped,
};
pub use keep_plan::{AskFacts, Filter, Pick, has_path, has_tag};

// Shelves.
pub use keep_folder::{FolderError, FolderShelf, open_folder};
pub use keep_shelf::{FailingShelf, Fault, Key, MemoryShelf, Shelf};

// Many operators at one book, each in a thread of its own, and what they are asked for.
pub use keep_desk as desk;
pub use keep_operators as operators;

// Scripts, and who hashes for them.
pub use keep_hashing::{Hashing, OneByOne};
pub use keep_jobs::Kit;
pub use keep_script::{RunStatus, Setup, run, run_on};
