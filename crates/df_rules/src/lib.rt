//! What a legal journal is, and what a purge keeps. A journal stands with its newest entry first.
//!
//! The crate has no code: each function is a law, and its contract is what holds.
#![tactic(auto)]

ghost use Rattle.std.specs.Prelude.{[], true, false, ◌≡◌, ◌∷◌, ◌++◌, ◌<◌, ℕ, List, None, Some, reverse};
ghost use Rattle.std.specs.List.{All, AllPairs, Contains};
ghost use Rattle.df_filter.specs.declared.clause.Clause.{Clause};
ghost use Rattle.df_label.specs.declared.label.Label.{Label};
ghost use Rattle.df_label.specs.Tag.{maker_of};
ghost use Rattle.df_unit.specs.KeptFact.{IsKept};
ghost use Rattle.df_unit.specs.OwnState.{OwnState, Fixed};
ghost use Rattle.df_unit.specs.declared.call.Call.{Call};
ghost use Rattle.df_unit.specs.declared.call.Call.TheVariants.{Get};
ghost use Rattle.df_unit.specs.declared.commit.Commit.{Commit};
ghost use Rattle.df_unit.specs.declared.commit.Given.{Given};
ghost use Rattle.df_unit.specs.declared.entry.Effect.{Effect};
ghost use Rattle.df_unit.specs.declared.entry.Entry.{Entry};
ghost use Rattle.df_unit.specs.declared.entry.Entry.TheVariants.{Done};
ghost use Rattle.df_unit.specs.declared.name.UnitName.{UnitName};
ghost use Rattle.df_unit.specs.declared.name.UnitName.TheVariants.{Managed, Root};
ghost use Rattle.df_unit.specs.declared.reply.Reply.{Reply};
ghost use Rattle.df_rules.specs.Always.{InEach, InEachLegal, OfEach, Roots};
ghost use Rattle.df_rules.specs.Begins.{Begins, IsChildOf, IsInstanceOf, owner_of};
ghost use Rattle.df_rules.specs.Commits.{commit_of};
ghost use Rattle.df_rules.specs.Deliveries.{deliveries, was_handed};
ghost use Rattle.df_rules.specs.Exercised.{Exercises};
ghost use Rattle.df_rules.specs.Follows.{Follows, Last, Want, brain_of};
ghost use Rattle.df_rules.specs.Grows.{HasGrown};
ghost use Rattle.df_rules.specs.Instances.{KeepsToItsName};
ghost use Rattle.df_rules.specs.Laws.{Laws, ReleaseLaws};
ghost use Rattle.df_rules.specs.Legal.{IsRightAtEach, IsUnaided, Legal, calls_of, run};
ghost use Rattle.df_rules.specs.Matching.{CallsFor, WasCalledFor};
ghost use Rattle.df_rules.specs.Own.{fixed, own};
ghost use Rattle.df_rules.specs.Purge.{Keeps, purge};
ghost use Rattle.df_rules.specs.Received.{Receives, received};
ghost use Rattle.df_rules.specs.Rules.{Rules};
ghost use Rattle.df_rules.specs.Separates.{Separates};
ghost use Rattle.df_rules.specs.Start.{roots, rows};
ghost use Rattle.df_rules.specs.Subscriptions.{ComesBefore, subscriptions};

/// A purge of a legal journal is legal.
pub fn purge_is_legal()
    ensures { InEachLegal (λ s past. (l : Label) → Legal rows s (purge rows s l past)) }
{}

/// Each unit within the label is in the purge as it was, has the ordinary subscriptions that it had
/// and is handed what it was, and what the label shows of each event is the same. This is so of
/// every journal.
pub fn purge_keeps()
    ensures { InEach (λ s past. (l : Label) → Keeps rows s l past (purge rows s l past)) }
{}

/// Where a commit becomes an emitted one, whatever kept its actor from the label was declassified
/// or endorsed while the privilege was held.
pub fn purge_exercises()
    ensures { InEach (λ s past. (l : Label) → Exercises rows s l past) }
{}

/// The three laws of a purge in one word.
pub fn legal_journals_separate()
    ensures { InEachLegal (λ s past. (l : Label) → Separates rows s past l) }
{}

/// The same laws, for any rules of the calls that satisfy `Laws`.
pub fn purge_for_all_rules()
    ensures legal { (R : Rules) (s : List OwnState) (l : Label) (past : List Entry) → Laws R s →
        Legal R s past → Legal R s (purge R s l past) }
    ensures keeps { (R : Rules) (s : List OwnState) (l : Label) (past : List Entry) → Laws R s →
        Keeps R s l past (purge R s l past) }
    ensures exercised { (R : Rules) (s : List OwnState) (l : Label) (past : List Entry) →
        Laws R s → ReleaseLaws R s → Exercises R s l past }
{}

/// What a unit does by itself.
pub trait StepFunction {
    /// What it wants, and its state afterwards.
    ghost next: { Self → Last → Want × Self };

    /// The state with which the instances of a subscription begin.
    ghost instance: { Self → ℕ → Self };
}

/// A journal that follows step functions follows them after a purge.
pub fn purge_follows<B: StepFunction>()
    ensures { InEach (λ s past. (bs : List B) (l : Label) →
        Follows (brain_of B.next B.instance) rows s bs past →
        Follows (brain_of B.next B.instance) rows s bs (purge rows s l past)) }
{}

/// With the oldest entry first, a journal is legal exactly where each entry is the answer to the
/// entries before it.
pub fn legal_by_places()
    ensures each { InEach (λ s j. Legal rows s (reverse j) → IsRightAtEach rows s j) }
    ensures all { InEach (λ s j. IsRightAtEach rows s j → Legal rows s (reverse j)) }
{}

/// There is one legal journal with these actors and calls, the newest first, into which nothing
/// was emitted.
pub fn runs_are_legal()
    ensures legal { (start : Roots) (calls : List (UnitName × Call)) →
        Legal rows (roots start) (run rows (roots start) calls) }
    ensures unaided { (start : Roots) (calls : List (UnitName × Call)) →
        IsUnaided (run rows (roots start) calls) }
    ensures calls { (start : Roots) (calls : List (UnitName × Call)) →
        calls_of (run rows (roots start) calls) ≡ calls }
    ensures only { InEachLegal (λ s past. IsUnaided past → past ≡ run rows s (calls_of past)) }
{}

/// A unit that exists goes on to exist. No privilege is lost, and its contamination and its counts
/// only grow.
pub fn units_grow()
    ensures { InEach (λ s past. OfEach s past (λ u st. (newer : List Entry) →
        (later : OwnState) × (own rows s (newer ++ past) u ≡ Some later) × HasGrown st later)) }
{}

/// A unit's contamination takes in all that it may read. Each of its confidentiality tags is in the
/// unit's output label or was dropped, and each integrity tag of the output label is in the
/// contamination or was endorsed.
pub fn tags_are_accounted_for()
    ensures { InEach (λ s past. OfEach s past (λ u st. IsKept st)) }
{}

/// A unit's ordinary subscriptions stand in the order of their numbers, and each number is below
/// the count of all subscriptions that the unit made.
pub fn subscriptions_are_numbered()
    ensures order { InEach (λ s past. (u : UnitName) →
        AllPairs ComesBefore (subscriptions rows s past u)) }
    ensures count { InEach (λ s past. OfEach s past (λ u st.
        All (λ (sub : ℕ × List Clause). sub.0 < st.subs) (subscriptions rows s past u))) }
{}

/// Each delivery is one that a commit called for: a plain unit's where the commit adds a part that
/// the unit may read and the filter of the subscription matches just the parts handed over, and an
/// instance's where a choice gives it. What a commit calls for was handed to the subscription
/// before, or is handed now.
pub fn deliveries_are_what_matches()
    ensures each { InEach (λ s past. (u : UnitName) (d : Given) →
        Contains (deliveries rows s past u) d → WasCalledFor rows s past u d) }
    ensures all { InEach (λ s past. (e : Entry) (u : UnitName) (c : Commit) (d : Given) →
        commit_of e ≡ Some c → CallsFor rows s past u c d →
        was_handed (deliveries rows s (e ∷ past) u) d.event d.sub ≡ true) }
{}

/// Later entries leave each delivery as it was.
pub fn deliveries_grow()
    ensures { InEach (λ s past. (newer : List Entry) (u : UnitName) → (more : List Given)
        × (deliveries rows s (newer ++ past) u ≡ deliveries rows s past u ++ more)) }
{}

/// No event is handed twice to one subscription of a unit.
pub fn deliveries_come_once()
    ensures { InEach (λ s past. (u : UnitName) (before later : List Given) (d : Given) →
        deliveries rows s past u ≡ before ++ d ∷ later → was_handed before d.event d.sub ≡ false) }
{}

/// In a legal journal a unit's gets give it exactly its deliveries, in order: what it received, and
/// then what is left to it. A get is answered nothing only where the unit has received them all.
/// Who doesn't exist received nothing.
pub fn gets_give_deliveries()
    ensures units { InEachLegal (λ s past. OfEach s past (λ u st. Receives rows s past u st)) }
    ensures nothing { InEach (λ s past. (u : UnitName) (f : Effect) →
        Legal rows s (Done u Get Reply.Nothing f ∷ past) →
        received u past ≡ deliveries rows s past u) }
    ensures absent { InEachLegal (λ s past. (u : UnitName) → own rows s past u ≡ None →
        received u past ≡ []) }
{}

/// An instance begins with labels and a contamination above those that its owner had before the
/// subscription, and a child above its maker's. What is dropped and endorsed is passed on. An
/// instance holds what its owner held, and a child what the call that made it names.
pub fn units_begin_above()
    ensures instances { InEach (λ s past. (e : Entry) (o : List ℕ) (n : ℕ) (t : List (List ℕ))
        (st : OwnState) → Begins s past e (Managed o n t) st →
        (owner : OwnState) × (owner_of s past o n ≡ Some owner) × IsInstanceOf owner st) }
    ensures children { InEach (λ s past. (e : Entry) (path : List ℕ) (st : OwnState) →
        Begins s past e (Root path) st → (maker : OwnState)
        × (own rows s past (Root (maker_of path)) ≡ Some maker) × IsChildOf maker e path st) }
{}

/// In a legal journal an instance reads at the label at which it began, which has the
/// confidentiality of both labels of its owner before the subscription, and makes no tags,
/// subscriptions and units.
pub fn instances_keep_to_their_names()
    ensures state { InEachLegal (λ s past. (o : List ℕ) (n : ℕ) (t : List (List ℕ))
        (st : OwnState) → own rows s past (Managed o n t) ≡ Some st →
        (f : Fixed) × (fixed rows s past o n ≡ Some f) × KeepsToItsName f t st) }
    ensures subscriptions { InEachLegal (λ s past. (o : List ℕ) (n : ℕ) (t : List (List ℕ)) →
        subscriptions rows s past (Managed o n t) ≡ []) }
{}
