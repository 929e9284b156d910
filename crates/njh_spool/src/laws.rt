//! Laws of what a customer's spool is.

ghost use Rattle.std.specs.Prelude.{◌≡◌, ℕ, ◌+◌, ◌*◌, ◌<◌, ◌≤◌, ◌↔◌, true, false, List, length, sum_by, All};
ghost use Rattle.njh_record.specs.Stored.{Stored};
ghost use Rattle.njh_spool.specs.CustomerSpool.{stored_size, CustomerSpool, cost, used_blocks, is_number, next_number};
ghost use Rattle.njh_spool.specs.CustomerSpool.{has_file_room};
ghost use Rattle.njh_spool.specs.Spools.{spool_at};

/// The cost is the least number of blocks of 252 bytes that hold the records.
pub fn cost_is_least()
    ensures { (records : List Stored) (blocks : ℕ) → (stored_size records ≤ 252 * blocks) ↔ (cost records ≤ blocks) }
{}

/// Where a customer may have one file more, the next number is the least that none of its files
/// has.
pub fn next_number_is_least()
    ensures free { (s : CustomerSpool) → has_file_room s ≡ true → is_number (next_number s) s ≡ false }
    ensures least { (s : CustomerSpool) (n : ℕ) → n < next_number s → is_number n s ≡ true }
    ensures below { (s : CustomerSpool) → has_file_room s ≡ true → next_number s < s.limit }
{}

/// Where the quotas add to at most the capacity, there is room for what a customer's quota leaves
/// it, whatever the others hold.
pub fn quotas_leave_room()
    ensures { (spools : List CustomerSpool) (capacity c blocks : ℕ) → All (λ s. used_blocks s ≤ s.quota) spools
        → sum_by (λ s. s.quota) spools ≤ capacity → c < length spools
        → used_blocks (spool_at c spools) + blocks ≤ (spool_at c spools).quota
        → sum_by used_blocks spools + blocks ≤ capacity }
{}
