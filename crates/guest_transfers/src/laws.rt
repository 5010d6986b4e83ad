//! What moves in two turns is what moves at once.
ghost use Rattle.std.specs.Prelude.{◌≡◌, ◌≤◌, ◌+◌, ◌-◌, ◌++◌, ◌/◌, ◌%◌, ℕ, List, Option, length, is_some};
ghost use Rattle.guest_pages.specs.Pages.{PagesValue};
ghost use Rattle.guest_files.specs.Content.{count_below};
ghost use Rattle.guest_files.specs.Files.{FilesValue};
ghost use Rattle.guest_files.specs.Moves.{read_piece, written_at};
ghost use Rattle.guest_transfers.specs.declared.kinds.Piece.{Piece};
ghost use Rattle.guest_transfers.specs.Draws.{drawn, number_after};
ghost use Rattle.guest_transfers.specs.Moves.{IsPut, Moved};

/// A transfer that stopped and was taken up again has put, moved, read, written and drawn what it would have at once.
pub fn turns_law()
    ensures put { (byte : ℕ → ℕ) (pieces : List Piece) (from between to : ℕ) (old now new : Option (List ℕ))
        → from ≤ between → between ≤ to → is_some now ≡ is_some old
        → IsPut byte pieces from between old now → IsPut byte pieces between to now new → IsPut byte pieces from to old new }
    ensures moved { (old now new : PagesValue) (pieces : List Piece) (from : ℕ) (xs ys : List ℕ)
        → Moved old now pieces from xs → Moved now new pieces (from + length xs) ys → Moved old new pieces from (xs ++ ys) }
    ensures read { (files : FilesValue) (fd at count more : ℕ)
        → read_piece files fd at (count + more) ≡ read_piece files fd at count ++ read_piece files fd (at + count) more }
    ensures written { (files : FilesValue) (fd at : ℕ) (xs ys : List ℕ) → count_below files.cap at (length xs) ≡ length xs
        → written_at (written_at files fd at xs) fd (at + length xs) ys ≡ written_at files fd at (xs ++ ys) }
    ensures drawn { (number from count more : ℕ) → drawn number from (count + more)
        ≡ drawn number from count ++ drawn (number_after number ((from + count) / 8)) ((from + count) % 8) more }
{}
