ghost use Rattle.std.specs.Prelude.{◌≡◌, ℕ, true};
ghost use Rattle.serde_json.specs.Data.{Members as MemberList};
ghost use Rattle.keep_members.specs.Carried.{IsCarried};
ghost use Rattle.keep_members.specs.Found.{found_in, found_of};
ghost use Rattle.keep_members.specs.Members.{IsSaid, MembersData};
ghost use Rattle.keep_members.specs.Mode.{go_mode, is_unix_mode, unix_mode};

/// What is carried reads back: each number, time and text, but for numbers that are 0.
pub fn carried_members_read_back()
    ensures { (m : MembersData) (carried : MemberList) → IsSaid m → IsCarried m carried → found_in carried ≡ found_of m }
{}

/// Go's mode of a file of a kind that there is says all that its `st_mode` says.
pub fn modes_go_there_and_back()
    ensures { (unix : ℕ) → is_unix_mode unix ≡ true → unix_mode (go_mode unix) ≡ unix }
{}
