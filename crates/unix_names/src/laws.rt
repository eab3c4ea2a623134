// What is so of signals, of their sets and of names by the definitions alone.
ghost use Rattle.std.specs.Prelude.{◌≡◌, ◌≢◌, ◌↔◌, ◌==◌, ◌&&◌, ◌||◌, ◌⊎◌, not, false, ℕ, List, Some, IsNone};
ghost use Rattle.unix_names.specs.declared.names.Name.{Name};
ghost use Rattle.unix_names.specs.declared.signals.Signal.{Signal};
ghost use Rattle.unix_names.specs.Names.{IsBefore};
ghost use Rattle.unix_names.specs.Sets.{has, added, removed, minus};
ghost use Rattle.unix_names.specs.Signals.{number_of, word_of, signal_of, signal_named};

/// Which signals a made or changed set has.
pub fn members()
    ensures none { (t : Signal) → has 0 t ≡ false }
    ensures added { (set : ℕ) (s t : Signal) → has (added set s) t ≡ (has set t || (number_of t == number_of s)) }
    ensures removed { (set : ℕ) (s t : Signal) → has (removed set s) t ≡ (has set t && not (number_of t == number_of s)) }
    ensures minus { (set other : ℕ) (t : Signal) → has (minus set other) t ≡ (has set t && not (has other t)) }
{}

/// A number or a word belongs to one signal, or to none.
pub fn numbers_and_words()
    ensures number { (n : ℕ) (s : Signal) → (signal_of n ≡ Some s) ↔ (number_of s ≡ n) }
    ensures no_number { (n : ℕ) → IsNone (signal_of n) ↔ ((s : Signal) → number_of s ≢ n) }
    ensures word { (word : List ℕ) (s : Signal) → (signal_named word ≡ Some s) ↔ (word_of s ≡ word) }
    ensures no_word { (word : List ℕ) → IsNone (signal_named word) ↔ ((s : Signal) → word_of s ≢ word) }
{}

/// Names stand in one order.
pub fn order()
    ensures irreflexive { (a : Name) → IsBefore a a → ⊥ }
    ensures transitive { (a b c : Name) → IsBefore a b → IsBefore b c → IsBefore a c }
    ensures total { (a b : Name) → IsBefore a b ⊎ ((a ≡ b) ⊎ IsBefore b a) }
{}
