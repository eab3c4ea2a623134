// The machines whose steps a log orders.
ghost use Rattle.std.specs.Prelude.{ℕ, List, []};
ghost use Rattle.pasts.specs.Pasts.{MergeLaw, CausalLaw};

/// A machine of many nodes: which node a step belongs to, and which lists of steps are lawful.
pub trait Machine {
    type Step: Copy;

    ghost node_of: { Self.Step → ℕ };

    ghost lawful: { List Self.Step → Type 0 };

    ghost empty_law: { lawful [] };

    // What is known of one of two lawful pasts or of the other is lawful.
    ghost merge_law: { MergeLaw node_of lawful };

    // A step that is lawful after a past with all steps of its node is lawful after the whole list.
    ghost causal_law: { CausalLaw node_of lawful };
}
