//! What becomes of the list of whole files, and what is left of it.

ghost use Rattle.std.specs.Prelude.{◌≡◌, ◌<◌, ◌≤◌, ◌^◌, ◌==◌, ◌++◌, [], ◌∷◌, ℕ, Bool, List, not, true, false};
ghost use Rattle.std.specs.Prelude.{if◌then◌else◌};
ghost use Rattle.std.specs.Prelude.{filter, map, IsTrue};
ghost use Rattle.std.specs.List.{AllByRecursion};
ghost use Rattle.sqlite.specs.Files.{file_state, HoldsDatabase};
ghost use Rattle.sqlite.specs.Held.{Held};
ghost use Rattle.sqlite.specs.Recovery.{Image};
ghost use Rattle.sqlite.specs.Tree.{Trees};
ghost use Rattle.sqlite_store.specs.FileStore as files;
ghost use Rattle.sqlite_store.specs.declared.store.FileStore.{FileStore};
ghost use Rattle.njh_spoolfile.specs.Kept.{File, Record, SpoolContents, Holds, HoldsAs, Rise, IsNumbered};
ghost use Rattle.njh_spoolfile.specs.Kept.{kept, whole_in};
ghost use Rattle.njh_spoolfile.specs.Kept.{records_of};
ghost use Rattle.njh_spoolfile.specs.Kept.{record_number, with_file, with_changed, with_record, without_file};
ghost use Rattle.njh_spoolfile.specs.Kept.{no_files, without_records};
ghost use Rattle.njh_spoolfile.specs.Lists.{IsFree, has_file, kept_where};
ghost use Rattle.njh_spoolfile.specs.Origin.{IsFoundIn};
ghost use Rattle.njh_spoolfile.specs.Packed.{packed, several, unpacked_row};
ghost use Rattle.njh_spoolfile.specs.Reopened.{OpensFrom};
ghost use Rattle.njh_spoolfile.specs.declared.versions.Version.{Version};

use sqlite_disk::Disk;

/// A file whose number is above the others comes last.
pub fn a_file_comes_last()
    ensures { (id : ℕ) (file : File) (spool : SpoolContents) → AllByRecursion (λ e. e.0 < id) spool.files
        → kept (with_file id file spool) ≡ kept spool ++ whole_in spool (id, file) ∷ [] }
{}

/// A file that leaves is gone, and the others stay in their order.
pub fn a_file_leaves()
    ensures { (id : ℕ) (spool : SpoolContents)
        → kept (without_file id spool) ≡ filter (λ w. not (w.id == id)) (kept spool) }
{}

/// A file that is changed keeps its place.
pub fn a_file_keeps_its_place()
    ensures { (id : ℕ) (file : File) (spool : SpoolContents) → Rise spool.files → has_file id spool ≡ true
        → kept (with_changed id file spool) ≡ map (λ w. if w.id == id then whole_in spool (
          id,
          file,
        ) else w) (kept spool) }
{}

/// Records that come, or are dropped, under a key that no whole file has don't show.
pub fn records_in_part_do_not_show()
    ensures added { (r : Record) (spool : SpoolContents) → AllByRecursion IsNumbered spool.records → r.place < 2 ^ 23
        → IsFree r.key spool → kept (with_record r spool) ≡ kept spool }
    ensures dropped { (key first end : ℕ) (spool : SpoolContents) → AllByRecursion IsNumbered spool.records
        → end ≤ 2 ^ 23
        → IsFree key spool → kept (without_records key first end spool) ≡ kept spool }
{}

/// A record whose place is above the others of its file comes last.
pub fn a_record_comes_last()
    ensures { (r : Record) (spool : SpoolContents) → AllByRecursion IsNumbered spool.records → Rise spool.records
        → r.place < 2 ^ 23
        → AllByRecursion (λ e. e.1.key ≡ r.key → e.1.place < r.place) spool.records
        → records_of r.key (with_record r spool) ≡ records_of r.key spool ++ (record_number r.key r.place, r) ∷ [] }
{}

/// A file of another customer, as of any that doesn't pass, changes nothing.
pub fn others_do_not_show()
    ensures { (passes : File → Bool) (id : ℕ) (file : File) (spool : SpoolContents)
        → AllByRecursion (λ e. e.0 < id) spool.files → passes file ≡ false
        → kept_where passes (with_file id file spool) ≡ kept_where passes spool }
{}

/// Records that are packed in a row are read back from it, each as it was. Of a row of one record
/// this is so by its definition.
pub fn what_is_packed_is_read_back()
    ensures { (r : ℕ × List ℕ) (rs : List (ℕ × List ℕ)) → unpacked_row several (packed (r ∷ rs)) ≡ r ∷ rs }
{}

/// Whoever opens files that hold a spool of an older version finds that spool, of this version.
pub fn an_older_spool_is_taken_over()
    ensures { (image : Image) (db : Trees) (spool : SpoolContents) → HoldsDatabase image db
        → HoldsAs Version.Older spool db → IsFoundIn image spool }
{}

/// Whoever opens the files that an open spool file may leave, at whatever moment, finds what a
/// crash might leave of it, and so what was committed last. Its trees have to stand under their
/// numbers, as those of one do that was stopped (`Store::stop`).
pub fn what_is_left_is_found<D: Disk>()
    ensures found { (conn : Held (FileStore D D.Disk)) → IsTrue (files.view conn.store).is_numbered
        → ((trees : Trees) → (file_state conn).may_leave trees → ((spool : SpoolContents) × Holds spool trees))
        → (left : Image) → (files.state conn.store).may_leave left → (now : Trees) → OpensFrom left now
        → ∥ ((trees : Trees) × (file_state conn).may_leave trees × (now ≡ trees)) ∥₁ }
    ensures leaves { (conn : Held (FileStore D D.Disk)) → IsTrue (files.view conn.store).is_numbered
        → ((trees : Trees) → (file_state conn).may_leave trees → ((spool : SpoolContents) × Holds spool trees))
        → (left : Image) → (files.state conn.store).may_leave left → ∥ ((trees : Trees)
        × (file_state conn).may_leave trees × HoldsDatabase left trees) ∥₁ }
    ensures committed { (conn : Held (FileStore D D.Disk)) → IsTrue (files.view conn.store).is_numbered
        → IsTrue (file_state conn).is_open → (spool : SpoolContents) → Holds spool (file_state conn).committed.trees
        → (left : Image) → (files.state conn.store).may_leave left → (now : Trees) → OpensFrom left now
        → Holds spool now }
{}

/// Whoever opens a spool file that has no byte, whatever its log has, finds a spool without a file.
pub fn an_empty_file_has_no_files()
    ensures { (image : Image) → image.db ≡ [] → IsFoundIn image no_files }
{}
