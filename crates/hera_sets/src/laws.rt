//! The laws that all else rests on, each the clause of a function without effect.
ghost use Rattle.std.specs.Prelude.{◌≡◌, Bool, true, not, ◌&&◌, ◌||◌, List, ℕ, Option};
ghost use Rattle.std.specs.List.{find};
ghost use Rattle.hera_sets.specs.Rows.{is_past, is_same, IsAscending, holds, put, normal, without};
ghost use Rattle.hera_sets.specs.Sets.{union_of, minus_of, inter_of};
ghost use Rattle.hera_sets.specs.NextRow.{IsNext};

/// Two ascending lists with the same members are one list.
pub fn members_are_the_set()
    ensures { (xs : List (List ℕ)) → (ys : List (List ℕ)) → IsAscending xs → IsAscending ys → ((q : List ℕ) → holds xs q ≡ holds ys q) → xs ≡ ys }
{}

/// The normal list of a list ascends and has the same members.
pub fn normal_is_ascending()
    ensures ascends { (xs : List (List ℕ)) → IsAscending (normal xs) }
    ensures members { (xs : List (List ℕ)) → (q : List ℕ) → holds (normal xs) q ≡ holds xs q }
{}

/// What each operation on sets does to the members.
pub fn operations_by_members()
    ensures put_in { (x : List ℕ) → (xs : List (List ℕ)) → (q : List ℕ) → holds (put x xs) q ≡ (is_same q x || holds xs q) }
    ensures taken_out { (x : List ℕ) → (xs : List (List ℕ)) → (q : List ℕ) → holds (without x xs) q ≡ (not (is_same x q) && holds xs q) }
    ensures union { (xs : List (List ℕ)) → (ys : List (List ℕ)) → (q : List ℕ) → holds (union_of xs ys) q ≡ (holds xs q || holds ys q) }
    ensures minus { (xs : List (List ℕ)) → (ys : List (List ℕ)) → (q : List ℕ) → holds (minus_of xs ys) q ≡ (not (holds ys q) && holds xs q) }
    ensures inter { (xs : List (List ℕ)) → (ys : List (List ℕ)) → (q : List ℕ) → holds (inter_of xs ys) q ≡ (holds ys q && holds xs q) }
{}

/// The first row past a bound in an ascending list is the least of its members past the bound.
pub fn first_past_is_the_least()
    ensures { (b : Option (List ℕ)) → (xs : List (List ℕ)) → IsAscending xs → IsNext (holds xs) b (find (is_past b) xs) }
{}
