//! Laws of rows and lists: what a draw and a hand keep, that lists merge, and to a legal history.
ghost use Rattle.std.specs.Prelude.{◌≡◌, ◌<◌, ◌+◌, ◌++◌, ℕ, suc, Bool, List, length};
ghost use Rattle.k42_kinds.specs.declared.entry.Act.{Act};
ghost use Rattle.k42_kinds.specs.declared.entry.Answer.{Answer};
ghost use Rattle.k42_kinds.specs.declared.entry.Entry.{Entry};
ghost use Rattle.k42_stamp.specs.Layouts.{layouts_with};
ghost use Rattle.k42_stamp.specs.Chains.{Chain};
ghost use Rattle.k42_stamp.specs.Fits.{Fits};
ghost use Rattle.k42_stamp.specs.Draws.{IsNext, Draws};
ghost use Rattle.k42_stamp.specs.Hands.{IsHand, handed, begun_at};
ghost use Rattle.k42_stamp.specs.Lists.{AreLists, LetsSteps, AllFit, AreThose, IsMerged, IsMergedFrom, AreLegal};
ghost use Rattle.k42_stamp.specs.Sections.{AreCutAt};

use k42_kinds::Layout;

/// A row that fits and an entry later than its cells and than its caller's entries of the row give a
/// row that fits, with the entry somewhere in its order, and with the parts that the entry makes.
pub fn draw_keeps<L: Layout>(procs: u32)
    requires { 0 < procs }
    ensures { (proc_of : ℕ → ℕ) → ((caller : ℕ) → proc_of caller < procs) →
        let F = layouts_with L.object L.shapes L.tag_of L.ways L.whole L.serves L.admitted L.act_of procs proc_of in
        (declared : L) (o : ℕ) (histories : ℕ → ℕ → List (Entry L.Op L.Reply))
        (chain : Chain L L.Part L.Op L.Reply)
        (entry : Entry L.Op L.Reply) → Fits F declared o histories chain →
        IsNext F o histories chain entry →
        Draws F declared o histories chain entry }
{}

/// The parts that a row has at last give the start of the next one, which begins with the entry by
/// which the row was handed on, and fits.
pub fn hand_begins<L: Layout>(procs: u32)
    requires { 0 < procs }
    ensures { (proc_of : ℕ → ℕ) → ((caller : ℕ) → proc_of caller < procs) →
        let F = layouts_with L.object L.shapes L.tag_of L.ways L.whole L.serves L.admitted L.act_of procs proc_of in
        (declared : L) (o : ℕ) (histories : ℕ → ℕ → List (Entry L.Op L.Reply))
        (chain : Chain L L.Part L.Op L.Reply) (layout : L)
        (entry : Entry L.Op L.Reply) → Fits F declared o histories chain →
        IsHand F declared o histories chain layout entry →
        Fits F declared o (begun_at entry (suc (length chain.past)) histories)
        (handed F chain layout entry) }
{}

/// Callers' lists always merge to one list in order, those too that no code holds.
pub fn lists_have_a_merge<O, R>()
    ensures { (lists : List (List (Entry O R))) → AreLists lists →
        (merged : List (Entry O R)) × IsMerged lists merged }
{}

/// Two merges of the same lists, numbered from the same number, are one.
pub fn a_merge_is_one<O, R>()
    ensures { (first : ℕ) (lists : List (List (Entry O R))) (one other : List (Entry O R)) →
        IsMergedFrom first lists one → IsMergedFrom first lists other → one ≡ other }
{}

/// Lists that are cut at a stamp are merged in two sections, of which the second is numbered on.
pub fn sections_merge_to_the_whole<O, R>()
    ensures { (last : ℕ) (lists fronts rests : List (List (Entry O R))) (before section : List (Entry O R)) →
        AreCutAt last lists fronts rests → IsMerged fronts before →
        IsMergedFrom (length before + 1) rests section → IsMerged lists (before ++ section) }
{}

/// Lists whose calls and carried-out swaps are just those of rows that fit merge to a history in which
/// each of these is legal. So are the entries that were answered `Spent` or `Gone`, where the test
/// lets them pass and the lists and the rows have them both.
pub fn merged_is_legal<L: Layout>(procs: u32)
    requires { 0 < procs }
    ensures { (proc_of : ℕ → ℕ) → ((caller : ℕ) → proc_of caller < procs) →
        let F = layouts_with L.object L.shapes L.tag_of L.ways L.whole L.serves L.admitted L.act_of procs proc_of in
        (declarations : List L) (histories : ℕ → ℕ → ℕ → List (Entry L.Op L.Reply))
        (chains : List (Chain L L.Part L.Op L.Reply))
        (lists : List (List (Entry L.Op L.Reply))) (merged : List (Entry L.Op L.Reply))
        (passes : Act L.Op → Answer L.Reply → Bool) →
        LetsSteps passes → AllFit F declarations histories chains →
        AreThose procs passes lists histories chains → IsMerged lists merged →
        AreLegal F declarations passes merged }
{}
