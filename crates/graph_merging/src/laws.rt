//! The laws of states that stand for others. Each is said of any function that merges the states
//! of a graph.

ghost use Rattle.std.specs.Prelude.{◌≡◌, ℕ, suc, ◌+◌, ◌*◌, ◌<◌, ◌≤◌, List, Option, Bool, true};
ghost use Rattle.graph_loops.specs.Loops.{IsFair, IsLoop, Takes, actor_count};
ghost use Rattle.graph_merging.specs.Merging.{IsMerging, merged};
ghost use Rattle.graph_search.specs.Walks.{IsReachable, IsWalk};

use graph_search::Graph;

/// What is reached between states that stand for others is reached in the graph; and where a state
/// is reached in the graph, what stands for it is reached between those.
pub fn merged_states_are_reached<G: Graph>()
    ensures sound { (next : G.State → ℕ → Option G.State) (actors : ℕ) (fits : G.State → Bool)
        (merge : G.State → G.State) (to_go : G.State → ℕ → ℕ) →
        IsMerging next actors fits merge to_go → (o r : G.State) → fits o ≡ true →
        IsReachable (merged next merge) (merge o) r → IsReachable next o r }
    ensures complete { (next : G.State → ℕ → Option G.State) (actors : ℕ) (fits : G.State → Bool)
        (merge : G.State → G.State) (to_go : G.State → ℕ → ℕ) →
        IsMerging next actors fits merge to_go → (o s : G.State) → fits o ≡ true →
        IsReachable next o s → IsReachable (merged next merge) (merge o) (merge s) }
{}

/// A loop between states that stand for others gives one of the graph, in which each actor steps
/// that steps in the first; so the second is fair where the first is.
pub fn merged_loops_are_loops<G: Graph>()
    ensures loops { (next : G.State → ℕ → Option G.State) (actors : ℕ) (fits : G.State → Bool)
        (merge : G.State → G.State) (to_go : G.State → ℕ → ℕ) →
        IsMerging next actors fits merge to_go → (r : G.State) (ls : List ℕ) → fits r ≡ true →
        IsLoop (merged next merge) actors r ls →
        (ms : List ℕ) × IsLoop next actors r ms × ((m : ℕ) → Takes ls m → Takes ms m) }
    ensures fair { (next : G.State → ℕ → Option G.State) (actors : ℕ)
        (merge : G.State → G.State) (r : G.State) (ls ms : List ℕ) →
        IsFair (merged next merge) actors r ls → ((m : ℕ) → Takes ls m → Takes ms m) →
        IsFair next actors r ms }
{}

/// A loop of the graph gives one of what stands for its state, in which each actor steps that steps
/// in the first; so the second is fair where the first is.
pub fn loops_are_merged_loops<G: Graph>()
    ensures loops { (next : G.State → ℕ → Option G.State) (actors : ℕ) (fits : G.State → Bool)
        (merge : G.State → G.State) (to_go : G.State → ℕ → ℕ) →
        IsMerging next actors fits merge to_go → (s : G.State) (ls : List ℕ) → fits s ≡ true →
        IsLoop next actors s ls →
        (ms : List ℕ) × IsLoop (merged next merge) actors (merge s) ms
        × ((m : ℕ) → m < actors → Takes ls m → Takes ms m) }
    ensures fair { (next : G.State → ℕ → Option G.State) (actors : ℕ) (fits : G.State → Bool)
        (merge : G.State → G.State) (to_go : G.State → ℕ → ℕ) →
        IsMerging next actors fits merge to_go → (s : G.State) (ls ms : List ℕ) →
        fits s ≡ true → IsFair next actors s ls →
        ((m : ℕ) → m < actors → Takes ls m → Takes ms m) →
        IsFair (merged next merge) actors (merge s) ms }
{}

/// Where no actor ever has more than `most` edges to go that stay, a walk of the graph has at most
/// so many times more edges of actors than walks between states that stand for others have.
pub fn merged_walks_bound_walks<G: Graph>()
    ensures { (next : G.State → ℕ → Option G.State) (actors : ℕ) (fits : G.State → Bool)
        (merge : G.State → G.State) (to_go : G.State → ℕ → ℕ) (most count : ℕ) →
        IsMerging next actors fits merge to_go → ((s : G.State) (m : ℕ) → to_go s m ≤ most) →
        (o t : G.State) (ls : List ℕ) → fits o ≡ true →
        ((u : G.State) (ms : List ℕ) → IsWalk (merged next merge) (merge o) ms u →
        actor_count actors ms < count) →
        IsWalk next o ls t → actor_count actors ls < suc most * count + actors * most }
{}
