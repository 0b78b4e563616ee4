//! What holds of the runs of every command, by their courses.
ghost use Rattle.std.specs.Prelude.{◌≡◌, ◌≢◌, Bool, List, None, Some, true, ℕ};
ghost use Rattle.run_promise.specs.Causes.{WantsNewFormat};
ghost use Rattle.run_promise.specs.Comes.{Comes, IsDue, IsOutside};
ghost use Rattle.run_promise.specs.CommandOf.{CommandOf, append_of, check_of, feed_of, follow_of, import_of, migrate_of, tiles_of, use_of};
ghost use Rattle.run_promise.specs.Courses.{course_of};
ghost use Rattle.run_promise.specs.EndsWell.{IsAppended, IsCleared, IsFed, IsFirstImport, IsFollowed, IsFoundSound};
ghost use Rattle.run_promise.specs.Followers.{LeavesFollower, RefusesFollowers};
ghost use Rattle.run_promise.specs.InTurn.{FaultNames, IsInTurn};
ghost use Rattle.run_promise.specs.Keeps.{Kept};
ghost use Rattle.run_promise.specs.Migrating.{IsMigrated, LeavesOld};
ghost use Rattle.run_promise.specs.Progress.{Ending, Progress, begun, keeps};
ghost use Rattle.run_promise.specs.Reading.{HasItsFiles};
ghost use Rattle.run_promise.specs.Runs.{MayBegin};
ghost use Rattle.run_promise.specs.World.{Before};
ghost use Rattle.run_promise.specs.declared.fault.Fault.TheVariants.{BadStore};
ghost use Rattle.run_promise.specs.declared.files.Files.{Files};

/// A run whose fault blames nothing outside, nor the want of memory, came to the end that is due.
pub fn ends_are_due()
    ensures due { (command : CommandOf) (old : Before) (start : Progress) (ending : Ending) → Comes old (course_of command) start ending
        → ¬ IsOutside ending.fault → IsDue old (course_of command) start ending }
{}

/// A fault that names a file names the one whose turn it was. Each command that words mean has its files.
pub fn faults_come_in_turn()
    ensures turn { (command : CommandOf) (old : Before) (start : Progress) (ending : Ending) (file : ℕ)
        → HasItsFiles command → MayBegin (use_of command) start
        → Comes old (course_of command) start ending → FaultNames ending.fault file → IsInTurn command old ending file }
{}

/// Each command that opens its store leaves one of the old format as it is, but for `migrate`.
pub fn old_stores_are_left()
    ensures left { (command : CommandOf) (old : Before) (kept : Kept) (ending : Ending) → WantsNewFormat command
        → Comes old (course_of command) (begun (keeps kept) kept.least) ending → LeavesOld command kept ending }
{}

/// Each command that opens its store leaves that of a follower as it is, but for `follow` and `export`.
pub fn follower_stores_are_left()
    ensures left { (command : CommandOf) (old : Before) (kept : Kept) (ending : Ending) → RefusesFollowers command
        → Comes old (course_of command) (begun (keeps kept) kept.least) ending → LeavesFollower kept ending }
{}

/// A migration that ends well leaves a store of this format that holds what it held, and has told so.
pub fn migrations_end_well()
    ensures migrated { (old : Before) (store : List ℕ) (kept : Kept) (ending : Ending)
        → Comes old (course_of (migrate_of store)) (begun (keeps kept) kept.least) ending → ending.fault ≡ None → IsMigrated kept ending }
{}

/// An append that ends well has appended each of its change files, one after another, and told each.
pub fn appends_end_well()
    ensures appended { (old : Before) (store : List ℕ) (files : Files) (ahead workers : ℕ) (kept : Kept) (ending : Ending)
        → Comes old (course_of (append_of store files ahead workers)) (begun (keeps kept) kept.least) ending → ending.fault ≡ None
        → IsAppended old files kept ending }
{}

/// A feed that ends well has appended each of its change files, one after another, and told what each has made of the tables.
pub fn feeds_end_well()
    ensures fed { (old : Before) (store : List ℕ) (files : Files) (full : Bool) (workers : ℕ) (kept : Kept) (ending : Ending)
        → Comes old (course_of (feed_of store files full workers)) (begun (keeps kept) kept.least) ending → ending.fault ≡ None
        → IsFed old files full kept ending }
{}

/// A following that ends well has taken each block of its files, one after another, and told each.
pub fn follows_end_well()
    ensures followed { (old : Before) (store : List ℕ) (files : Files) (kept : Kept) (ending : Ending)
        → Comes old (course_of (follow_of store files)) (begun (keeps kept) kept.least) ending → ending.fault ≡ None
        → IsFollowed old files kept ending }
{}

/// An import that ends well was the first one, and has told so.
pub fn imports_end_well()
    ensures imported { (old : Before) (store : List ℕ) (files : Files) (buckets workers : ℕ) (kept : Kept) (ending : Ending)
        → Comes old (course_of (import_of store files buckets workers)) (begun (keeps kept) kept.least) ending → ending.fault ≡ None
        → IsFirstImport old files buckets kept ending }
{}

/// A clearing that ends well has written the tiles that were due, and none is due any more.
pub fn clearings_end_well()
    ensures cleared { (old : Before) (store : List ℕ) (least : ℕ) (kept : Kept) (ending : Ending)
        → Comes old (course_of (tiles_of store least true)) (begun (keeps kept) kept.least) ending → ending.fault ≡ None
        → IsCleared least kept ending }
{}

/// A check of a store that keeps a history tells no page. Where it ends well, the store keeps what stood, and the line was told.
pub fn checks_end_well()
    ensures no_page { (old : Before) (store : List ℕ) (kept : Kept) (ending : Ending)
        → Comes old (course_of (check_of store)) (begun (keeps kept) kept.least) ending → (page : ℕ) → ending.fault ≢ Some (BadStore page) }
    ensures found { (old : Before) (store : List ℕ) (kept : Kept) (ending : Ending)
        → Comes old (course_of (check_of store)) (begun (keeps kept) kept.least) ending → ending.fault ≡ None → IsFoundSound kept ending }
{}
