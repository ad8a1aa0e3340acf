//! The laws of the joined machine, which the running table takes over for its own states.
ghost use Rattle.std.specs.Prelude.{◌≡◌, ◌⊎◌, ◌<◌, ℕ, List, Some, slice_get};
ghost use Rattle.k42_kinds.specs.declared.entry.Entry.{Entry};
ghost use Rattle.k42_stamp.specs.Layouts.{layouts_with};
ghost use Rattle.k42_stamp.specs.Lists.{IsMerged, AreLegal, is_drawn};
ghost use Rattle.k42_joined.specs.Plain.{Joined};
ghost use Rattle.k42_joined.specs.Event.{Event, AtCells, HandWith, caller_of};
ghost use Rattle.k42_joined.specs.Possible.{IsPossible};
ghost use Rattle.k42_joined.specs.Effects.{effect};
ghost use Rattle.k42_joined.specs.Fitting.{lists_of};
ghost use Rattle.k42_joined.specs.Sound.{IsSound};
ghost use Rattle.k42_joined.specs.Safe.{IsSafe};
ghost use Rattle.phase_core.specs.Runs.{HasRead};
ghost use Rattle.k42_stamp.specs.Chains.{Chain};
ghost use Rattle.k42_joined.specs.Touching.{IsAloneAt};
ghost use Rattle.k42_joined.specs.Frame.{cells_of, object_of, LeavesOthers};
ghost use Rattle.k42_joined.specs.Rows.{AreRowsOf};
ghost use Rattle.k42_joined.specs.Following.{FollowsDraw, FollowsHand, drawn_at};
ghost use Rattle.turn_core.specs.declared.event.TurnEvent.TheVariants.{Draw, Skip};
ghost use Rattle.k42_joined.specs.Rest.{IsAtRest, IsHistoryOf};
ghost use Rattle.k42_joined.specs.Seen.{HasSeen, StandsAt, Drawn, drawn_by};
ghost use Rattle.k42_joined.specs.Runs.{Leads, IsReached, Leaves, IsFreedOnce, TakesRow};
ghost use Rattle.k42_joined.specs.State.{many_callers, many_objects};

use k42_kinds::Layout;

/// Whatever events come, every fact of the invariant holds.
pub fn stays_sound<L: Layout>(procs: u32)
    requires { 0 < procs }
    ensures { (proc_of : ℕ → ℕ) → ((caller : ℕ) → proc_of caller < procs) →
        let F = layouts_with L.object L.shapes L.tag_of L.ways L.whole L.serves L.admitted L.act_of procs proc_of in
        (declared : List L) (s : Joined L L.Op L.Reply) → IsReached F declared s →
        IsSound F declared s }
{}

/// Each possible event keeps every fact, from every state that meets them.
pub fn each_event_keeps<L: Layout>(procs: u32)
    requires { 0 < procs }
    ensures { (proc_of : ℕ → ℕ) → ((caller : ℕ) → proc_of caller < procs) →
        let F = layouts_with L.object L.shapes L.tag_of L.ways L.whole L.serves L.admitted L.act_of procs proc_of in
        (declared : List L) (s : Joined L L.Op L.Reply) (event : Event L L.Op L.Reply) →
        IsSound F declared s →
        IsPossible F declared s event → IsSound F declared (effect s event) }
{}

/// A state that meets every fact is safe: state is moved while nobody is inside, who is inside a row finds
/// its cells open, and no row that was read is freed or given again.
pub fn sound_states_are_safe<L: Layout>(procs: u32)
    requires { 0 < procs }
    ensures { (proc_of : ℕ → ℕ) → ((caller : ℕ) → proc_of caller < procs) →
        let F = layouts_with L.object L.shapes L.tag_of L.ways L.whole L.serves L.admitted L.act_of procs proc_of in
        (declared : List L) (s : Joined L L.Op L.Reply) → IsSound F declared s → IsSafe s }
{}

/// The entries of all callers, in order and numbered anew, are legal wherever they were drawn at cells:
/// each call, and each end of a swap.
pub fn trace_is_legal<L: Layout>(procs: u32)
    requires { 0 < procs }
    ensures { (proc_of : ℕ → ℕ) → ((caller : ℕ) → proc_of caller < procs) →
        let F = layouts_with L.object L.shapes L.tag_of L.ways L.whole L.serves L.admitted L.act_of procs proc_of in
        (declared : List L) (s : Joined L L.Op L.Reply) (merged : List (Entry L.Op L.Reply)) →
        IsSound F declared s →
        IsMerged (lists_of s) merged → AreLegal F declared is_drawn merged }
{}

/// Rows that are freed stay freed, a row is freed once, and cells begin each life once.
pub fn rows_are_freed_once<L: Layout>(procs: u32)
    requires { 0 < procs }
    ensures { (proc_of : ℕ → ℕ) → ((caller : ℕ) → proc_of caller < procs) →
        let F = layouts_with L.object L.shapes L.tag_of L.ways L.whole L.serves L.admitted L.act_of procs proc_of in
        (declared : List L) (s t : Joined L L.Op L.Reply) (events : List (Event L L.Op L.Reply)) →
        Leads F declared events s t →
        IsFreedOnce F declared s t }
{}

/// A row that an activity has read is freed, and its cells are given again, only after that activity has left.
pub fn readers_leave_before<L: Layout>(procs: u32)
    requires { 0 < procs }
    ensures { (proc_of : ℕ → ℕ) → ((caller : ℕ) → proc_of caller < procs) →
        let F = layouts_with L.object L.shapes L.tag_of L.ways L.whole L.serves L.admitted L.act_of procs proc_of in
        (declared : List L) (s t : Joined L L.Op L.Reply) (events : List (Event L L.Op L.Reply))
        (last : Event L L.Op L.Reply) (c o i : ℕ) →
        IsSound F declared s → Leads F declared events s t → IsPossible F declared t last →
        c < many_callers s → HasRead s.phases c o i → TakesRow t last o i → Leaves c events }
{}

/// Where no swap is under way, the entries of all callers, in order and numbered anew, are one legal history of
/// all objects, refusals by another swap among them, and each caller's entries stand in it in order.
pub fn trace_at_rest_is_a_history<L: Layout>(procs: u32)
    requires { 0 < procs }
    ensures { (proc_of : ℕ → ℕ) → ((caller : ℕ) → proc_of caller < procs) →
        let F = layouts_with L.object L.shapes L.tag_of L.ways L.whole L.serves L.admitted L.act_of procs proc_of in
        (declared : List L) (s : Joined L L.Op L.Reply) (merged : List (Entry L.Op L.Reply)) →
        IsSound F declared s → IsAtRest s →
        IsMerged (lists_of s) merged → IsHistoryOf F declared s merged }
{}

/// The stamp of a drawn entry is above that of each entry that its caller has seen, and above those of the
/// cells at which it is drawn.
pub fn stamps_pass_what_was_seen<L: Layout>(procs: u32)
    requires { 0 < procs }
    ensures { (proc_of : ℕ → ℕ) → ((caller : ℕ) → proc_of caller < procs) →
        let F = layouts_with L.object L.shapes L.tag_of L.ways L.whole L.serves L.admitted L.act_of procs proc_of in
        (declared : List L) (s : Joined L L.Op L.Reply) (event : Event L L.Op L.Reply)
        (drawn : Drawn L.Op L.Reply) (seen : Entry L.Op L.Reply) →
        IsSound F declared s → IsPossible F declared s event → drawn_by event ≡ Some drawn →
        HasSeen s (caller_of event) seen ⊎ StandsAt s drawn.cells seen → seen.stamp < drawn.entry.stamp }
{}

/// What a caller draws after a skip, whatever comes between, is later than the stamp to which it skipped.
pub fn what_follows_a_skip_is_later<L: Layout>(procs: u32)
    requires { 0 < procs }
    ensures { (proc_of : ℕ → ℕ) → ((caller : ℕ) → proc_of caller < procs) →
        let F = layouts_with L.object L.shapes L.tag_of L.ways L.whole L.serves L.admitted L.act_of procs proc_of in
        (declared : List L) (s t : Joined L L.Op L.Reply) (c stamp : ℕ)
        (events : List (Event L L.Op L.Reply)) (event : Event L L.Op L.Reply)
        (drawn : Drawn L.Op L.Reply) → IsSound F declared s →
        IsPossible F declared s (AtCells (Skip c stamp)) →
        Leads F declared events (effect s (AtCells (Skip c stamp))) t → IsPossible F declared t event →
        caller_of event ≡ c → drawn_by event ≡ Some drawn → stamp < drawn.entry.stamp }
{}

/// An event leaves all callers but its own, all cells that it does not name, and all objects but one.
pub fn others_stay<L: Layout>(procs: u32)
    requires { 0 < procs }
    ensures { (proc_of : ℕ → ℕ) → ((caller : ℕ) → proc_of caller < procs) →
        let F = layouts_with L.object L.shapes L.tag_of L.ways L.whole L.serves L.admitted L.act_of procs proc_of in
        (declared : List L) (s : Joined L L.Op L.Reply) (event : Event L L.Op L.Reply) →
        IsSound F declared s →
        IsPossible F declared s event →
        LeavesOthers s (effect s event) (caller_of event) (cells_of event) (object_of s event) }
{}

/// The histories of its cells and the layouts of its hands tell an object's rows.
pub fn rows_that_fit_are_one<L: Layout>(procs: u32)
    requires { 0 < procs }
    ensures { (proc_of : ℕ → ℕ) → ((caller : ℕ) → proc_of caller < procs) →
        let F = layouts_with L.object L.shapes L.tag_of L.ways L.whole L.serves L.admitted L.act_of procs proc_of in
        (declaration : L) (s : Joined L L.Op L.Reply) (o : ℕ) (x y : Chain L L.Part L.Op L.Reply) →
        AreRowsOf F declaration s o x → AreRowsOf F declaration s o y → x ≡ y }
{}

/// A draw moves the parts of the row as its entry says.
pub fn parts_follow_draws<L: Layout>(procs: u32)
    requires { 0 < procs }
    ensures { (proc_of : ℕ → ℕ) → ((caller : ℕ) → proc_of caller < procs) →
        let F = layouts_with L.object L.shapes L.tag_of L.ways L.whole L.serves L.admitted L.act_of procs proc_of in
        (declared : List L) (s : Joined L L.Op L.Reply) (o c : ℕ) (declaration : L)
        (x y : Chain L L.Part L.Op L.Reply)
        (cells : List ℕ) (entry : Entry L.Op L.Reply) → IsSound F declared s →
        slice_get declared o ≡ Some declaration →
        AreRowsOf F declaration s o x → IsPossible F declared s (AtCells (Draw c cells entry)) →
        entry.object ≡ o → AreRowsOf F declaration (effect s (AtCells (Draw c cells entry))) o y →
        FollowsDraw F entry x y }
{}

/// A hand begins a row that stands for what the new layout admits of the old row's state.
pub fn parts_follow_hands<L: Layout>(procs: u32)
    requires { 0 < procs }
    ensures { (proc_of : ℕ → ℕ) → ((caller : ℕ) → proc_of caller < procs) →
        let F = layouts_with L.object L.shapes L.tag_of L.ways L.whole L.serves L.admitted L.act_of procs proc_of in
        (declared : List L) (s : Joined L L.Op L.Reply) (o c : ℕ) (declaration layout : L)
        (x y : Chain L L.Part L.Op L.Reply)
        (from onto : List ℕ) (entry : Entry L.Op L.Reply) → IsSound F declared s →
        slice_get declared o ≡ Some declaration →
        AreRowsOf F declaration s o x → IsPossible F declared s (HandWith c from onto layout entry) →
        entry.object ≡ o → AreRowsOf F declaration (effect s (HandWith c from onto layout entry)) o y →
        FollowsHand F layout entry x y }
{}

/// An event that draws at no cell of an object leaves its rows with all their parts; so does a Free.
pub fn rows_stay_else<L: Layout>(procs: u32)
    requires { 0 < procs }
    ensures { (proc_of : ℕ → ℕ) → ((caller : ℕ) → proc_of caller < procs) →
        let F = layouts_with L.object L.shapes L.tag_of L.ways L.whole L.serves L.admitted L.act_of procs proc_of in
        (declared : List L) (s : Joined L L.Op L.Reply) (event : Event L L.Op L.Reply) (o : ℕ)
        (declaration : L)
        (x : Chain L L.Part L.Op L.Reply) → IsSound F declared s → IsPossible F declared s event →
        (drawn_at event ≡ Some o → ⊥) → AreRowsOf F declaration s o x →
        AreRowsOf F declaration (effect s event) o x }
{}

/// One caller at a time moves an object or frees rows of it.
pub fn moves_and_frees_alone<L: Layout>(procs: u32)
    requires { 0 < procs }
    ensures { (proc_of : ℕ → ℕ) → ((caller : ℕ) → proc_of caller < procs) →
        let F = layouts_with L.object L.shapes L.tag_of L.ways L.whole L.serves L.admitted L.act_of procs proc_of in
        (declared : List L) (s : Joined L L.Op L.Reply) (c d o : ℕ) → IsSound F declared s →
        c < many_callers s →
        d < many_callers s → o < many_objects s → IsAloneAt s.phases c o → IsAloneAt s.phases d o → c ≡ d }
{}
