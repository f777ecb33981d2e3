//! The smallest part of a refusal: as many calls as possible are forgotten, as long as no order explains what is left.
ghost use Rattle.std.specs.Prelude.{◌≡◌, ◌↔◌, ◌<◌, ℕ, List, IfNone, IfOk, IfSome, IsTrue, OnOk, length, map, true};
ghost use Rattle.std.specs.List.{All};
ghost use Rattle.jc_check.specs.Explains.{IsExplained};
ghost use Rattle.jc_check.specs.Parts.{AreNeeds, HasRoles, IsLeft, IsNeed, IsRefutedPart, IsRoundEnd, IsSame, IsSettledPart, IsTrial, forget, is_settled_need};
ghost use Rattle.jc_check.specs.Parts.{whole, with_roles, without};
ghost use Rattle.jc_check.specs.Verdict.{IsVerdict};

use crate::record::{Recorded, Role, Rules, Spot};
use crate::verdict::{Verdict, check};
use std::alloc::{AllocError, Global};

/// What is known of a call of a part.
#[derive(Clone, Copy, Debug, PartialEq, Eq)]
pub enum Need {
    /// It is forgotten.
    Forgotten,
    /// If it is forgotten, too, some order explains the record.
    Needed,
    /// If it is forgotten, too, more nodes can be met than a try may meet.
    Unclear,
    /// It wasn't tried: the budget of all tries was spent.
    Untried,
}

/// What may be spent on a search for the smallest part.
#[derive(Clone, Copy, Debug, PartialEq, Eq)]
pub struct PartLimits {
    /// The most nodes that one try may meet.
    pub each: usize,
    /// How many nodes all tries may meet: when so many were met, none is begun.
    pub all: usize,
}

/// A part of a refusal.
#[derive(Drop)]
pub struct RefutedPart {
    /// The calls: those are forgotten that aren't kept.
    pub calls: Vec<Recorded>,
    /// Whether each of them is kept.
    pub kept: Vec<bool>,
    /// What is known of each of them.
    pub needs: Vec<Need>,
}

impl Need {
    /// Whether the call is forgotten, or known to be needed.
    fn is_settled(&self) -> bool
        ensures { result ≡ is_settled_need self.now }
    {
        match self {
            Need::Forgotten | Need::Needed => true,
            Need::Unclear | Need::Untried => false,
        }
    }
}

impl RefutedPart {
    /// Whether no call of the part can be forgotten: for each of them it is known that some order explains the record without it.
    pub fn is_minimal(&self) -> bool
        ensures { IsTrue result ↔ All (λ n. is_settled_need n ≡ true) self.now.needs.items }
    {
        self.needs.iter().all(|need| need.is_settled())
    }
}

/// What a try says of a record.
#[derive(Clone, Copy)]
enum Trial {
    /// No order explains it.
    Refuted,
    /// Some order does.
    Explained,
    /// More nodes can be met than a try may meet.
    Stopped,
    /// The budget was spent.
    Untried,
}

/// How a round over the calls of a part ended.
#[derive(Drop)]
enum RoundEnd {
    /// None can be forgotten; what is known of each of them.
    All(Vec<Need>),
    /// One was forgotten: these are kept.
    Fewer(Vec<bool>),
}

/// A search for the smallest part.
#[derive(Drop)]
struct Shrinking {
    /// Where its memory is taken.
    alloc: Global,
    /// The calls, some of which are forgotten.
    calls: Vec<Recorded>,
    /// Their own roles.
    own: Vec<Role>,
    /// The most nodes that one try may meet.
    each: usize,
    /// How many nodes may be met yet.
    left: usize,
}

/// The roles of calls. An `Err` says that an allocation failed.
fn roles_of(alloc: Global, calls: &[Recorded]) -> Result<Vec<Role>, AllocError>
    ensures { IfOk result (λ roles. roles.items ≡ map (λ c. c.role) calls.now) }
{
    let mut roles = Vec::new(alloc);
    for call in calls {
        roles.push(call.role)?;
    }
    Ok(roles)
}

/// Gives calls these roles.
fn set_roles(calls: &mut Vec<Recorded>, roles: &[Role])
    ensures { calls.new.items ≡ with_roles roles.now calls.old.items }
{
    for at in 0..roles.len() {
        if at < calls.len() {
            calls[at].role = roles[at];
        }
    }
}

/// Forgets the calls that aren't kept.
fn forget(calls: &mut Vec<Recorded>, kept: &[bool])
    ensures { calls.new.items ≡ forget kept.now calls.old.items }
{
    for at in 0..kept.len() {
        if at < calls.len() && !kept[at] {
            calls[at].role = Role::Forgotten;
        }
    }
}

/// Marks for this many calls, all of which are kept. An `Err` says that an allocation failed.
fn all_kept(alloc: Global, count: usize) -> Result<Vec<bool>, AllocError>
    ensures count { IfOk result (λ kept. length kept.items ≡ count) }
    ensures all { IfOk result (λ kept. (calls : List Recorded) → forget kept.items calls ≡ calls) }
{
    let mut kept = Vec::new(alloc);
    for _call in 0..count {
        kept.push(true)?;
    }
    Ok(kept)
}

/// Takes the marks from `from` to `end` away. Returns whether there was one.
fn clear(kept: &mut Vec<bool>, from: usize, end: usize) -> bool
    ensures { length kept.new.items ≡ length kept.old.items }
{
    let mut was_kept = false;
    for at in from..end {
        if at < kept.len() && kept[at] {
            kept[at] = false;
            was_kept = true;
        }
    }
    was_kept
}

/// What a verdict says.
fn trial_of(verdict: &Verdict) -> Trial
    ensures { (rules : Rules) (calls : List Recorded) (opening : Spot) (limit : ℕ) → IsVerdict rules calls opening limit verdict.now
        → IsTrial rules calls opening limit result }
{
    match verdict {
        Verdict::Explained(_) => Trial::Explained,
        Verdict::Refuted(_) => Trial::Refuted,
        Verdict::Stopped(_) => Trial::Stopped,
    }
}

/// How many nodes a verdict has cost, as far as it tells.
fn cost_of(verdict: &Verdict) -> usize
    requires { Unit {0} }
{
    match verdict {
        Verdict::Explained(turns) => turns.len().saturating_add(1),
        Verdict::Refuted(states) | Verdict::Stopped(states) => states.list.len(),
    }
}

impl Shrinking {
    /// Whether some order explains the calls if all are forgotten that aren't kept. An `Err` says that an allocation failed.
    fn try_kept(
        &mut self,
        rules: &Rules,
        opening: &Spot,
        kept: &[bool],
    ) -> Result<Trial, AllocError>
        requires { HasRoles self.old }
        ensures same { OnOk result (IsSame self.old self.new) }
        ensures trial { IfOk result (λ t. IsTrial rules.now (forget kept.now (whole self.old)) opening.now self.old.each t) }
    {
        if self.left == 0 {
            return Ok(Trial::Untried);
        }
        set_roles(&mut self.calls, &self.own);
        forget(&mut self.calls, kept);
        let verdict = check(self.alloc, rules, &self.calls, opening, self.each)?;
        self.left = self.left.saturating_sub(cost_of(&verdict));
        Ok(trial_of(&verdict))
    }

    /// Forgets the calls from `from` to `end`, too, if no order explains the others. An `Err` says that an allocation failed.
    fn without_group(
        &mut self,
        rules: &Rules,
        opening: &Spot,
        kept: Vec<bool>,
        from: usize,
        end: usize,
    ) -> Result<Vec<bool>, AllocError>
        requires roles { HasRoles self.old }
        requires left { IsLeft rules.now (whole self.old) opening.now kept.items }
        ensures same { OnOk result (IsSame self.old self.new) }
        ensures left { IfOk result (λ k. (length k.items ≡ length kept.items) × IsLeft rules.now (whole self.old) opening.now k.items) }
    {
        let mut fewer = Vec::from_slice(self.alloc, &kept)?;
        if !clear(&mut fewer, from, end) {
            return Ok(kept);
        }
        match self.try_kept(rules, opening, &fewer)? {
            Trial::Refuted => Ok(fewer),
            Trial::Explained | Trial::Stopped | Trial::Untried => Ok(kept),
        }
    }

    /// Forgets each group of so many calls without which no order explains the others. An `Err` says that an allocation failed.
    fn without_groups(
        &mut self,
        rules: &Rules,
        opening: &Spot,
        kept: Vec<bool>,
        size: usize,
    ) -> Result<Vec<bool>, AllocError>
        requires roles { HasRoles self.old }
        requires left { IsLeft rules.now (whole self.old) opening.now kept.items }
        ensures same { OnOk result (IsSame self.old self.new) }
        ensures left { IfOk result (λ k. (length k.items ≡ length kept.items) × IsLeft rules.now (whole self.old) opening.now k.items) }
    {
        let mut kept = kept;
        let mut from: usize = 0;
        for _group in 0..kept.len() {
            if from >= kept.len() {
                return Ok(kept);
            }
            let end = from.saturating_add(size);
            kept = self.without_group(rules, opening, kept, from, end)?;
            from = end;
        }
        Ok(kept)
    }

    /// Forgets the calls behind the last one that is needed, since the search for an order is the shorter the fewer calls are forgotten
    /// before the last one that is kept. An `Err` says that an allocation failed.
    fn without_tail(
        &mut self,
        rules: &Rules,
        opening: &Spot,
        kept: Vec<bool>,
    ) -> Result<Vec<bool>, AllocError>
        requires roles { HasRoles self.old }
        requires left { IsLeft rules.now (whole self.old) opening.now kept.items }
        ensures same { OnOk result (IsSame self.old self.new) }
        ensures left { IfOk result (λ k. (length k.items ≡ length kept.items) × IsLeft rules.now (whole self.old) opening.now k.items) }
    {
        let mut kept = kept;
        let mut from: usize = 0;
        let mut end = kept.len();
        for _halving in 0..usize::BITS {
            let middle = from.saturating_add(end.saturating_sub(from) / 2);
            if middle <= from || kept.len() <= middle {
                return Ok(kept);
            }
            kept = self.without_group(rules, opening, kept, middle, end)?;
            if middle < kept.len() && kept[middle] {
                from = middle;
            } else {
                end = middle;
            }
        }
        Ok(kept)
    }

    /// Forgets the calls behind the last one that is needed, and then groups of calls, the groups half as large each time, down to
    /// single calls. An `Err` says that an allocation failed.
    fn halved(
        &mut self,
        rules: &Rules,
        opening: &Spot,
        kept: Vec<bool>,
    ) -> Result<Vec<bool>, AllocError>
        requires roles { HasRoles self.old }
        requires left { IsLeft rules.now (whole self.old) opening.now kept.items }
        ensures same { OnOk result (IsSame self.old self.new) }
        ensures left { IfOk result (λ k. (length k.items ≡ length kept.items) × IsLeft rules.now (whole self.old) opening.now k.items) }
    {
        let mut kept = self.without_tail(rules, opening, kept)?;
        let mut size = kept.len();
        for _halving in 0..usize::BITS {
            size /= 2;
            if size == 0 {
                return Ok(kept);
            }
            kept = self.without_groups(rules, opening, kept, size)?;
        }
        Ok(kept)
    }

    /// What is known of a call; nothing if it can be forgotten, too. An `Err` says that an allocation failed.
    fn need_of(
        &mut self,
        rules: &Rules,
        opening: &Spot,
        kept: &[bool],
        call: usize,
    ) -> Result<Option<Need>, AllocError>
        requires roles { HasRoles self.old }
        requires there { call < length kept.now }
        ensures same { OnOk result (IsSame self.old self.new) }
        ensures need { IfOk result (λ o. IfSome o (IsNeed rules.now (whole self.old) opening.now self.old.each kept.now call)) }
        ensures none { IfOk result (λ o. IfNone o (IsLeft rules.now (whole self.old) opening.now (without kept.now call))) }
    {
        if !kept[call] {
            return Ok(Some(Need::Forgotten));
        }
        let fewer = one_fewer(self.alloc, kept, call)?;
        match self.try_kept(rules, opening, &fewer)? {
            Trial::Refuted => Ok(None),
            Trial::Explained => Ok(Some(Need::Needed)),
            Trial::Stopped => Ok(Some(Need::Unclear)),
            Trial::Untried => Ok(Some(Need::Untried)),
        }
    }

    /// Tries each call that is kept, until one can be forgotten. An `Err` says that an allocation failed.
    fn round(
        &mut self,
        rules: &Rules,
        opening: &Spot,
        kept: &[bool],
    ) -> Result<RoundEnd, AllocError>
        requires roles { HasRoles self.old }
        ensures same { OnOk result (IsSame self.old self.new) }
        ensures end { IfOk result (IsRoundEnd rules.now (whole self.old) opening.now self.old.each kept.now) }
    {
        let mut needs = Vec::new(self.alloc);
        for call in 0..kept.len() {
            match self.need_of(rules, opening, kept, call)? {
                Some(need) => needs.push(need)?,
                None => return Ok(RoundEnd::Fewer(one_fewer(self.alloc, kept, call)?)),
            }
        }
        Ok(RoundEnd::All(needs))
    }

    /// Forgets single calls until none can be forgotten. Returns which are kept, and what is known of each of them. An `Err` says that
    /// an allocation failed.
    fn settled(
        &mut self,
        rules: &Rules,
        opening: &Spot,
        kept: Vec<bool>,
    ) -> Result<(Vec<bool>, Vec<Need>), AllocError>
        requires roles { HasRoles self.old }
        requires left { IsLeft rules.now (whole self.old) opening.now kept.items }
        ensures same { OnOk result (IsSame self.old self.new) }
        ensures end { IfOk result (λ p. IsSettledPart rules.now (whole self.old) opening.now self.old.each (length kept.items) p.0.items p.1.items) }
    {
        let mut kept = kept;
        for _round in 0..kept.len() {
            match self.round(rules, opening, &kept)? {
                RoundEnd::All(needs) => return Ok((kept, needs)),
                RoundEnd::Fewer(fewer) => kept = fewer,
            }
        }
        let needs = untried(self.alloc, &kept)?;
        Ok((kept, needs))
    }
}

/// What is kept, without one more call. An `Err` says that an allocation failed.
fn one_fewer(alloc: Global, kept: &[bool], call: usize) -> Result<Vec<bool>, AllocError>
    requires { call < length kept.now }
    ensures { IfOk result (λ fewer. fewer.items ≡ without kept.now call) }
{
    let mut fewer = Vec::from_slice(alloc, kept)?;
    fewer[call] = false;
    Ok(fewer)
}

/// What is known of a call that wasn't tried.
fn need_untried(kept: &[bool], call: usize) -> Need
    requires { call < length kept.now }
    ensures { (rules : Rules) (calls : List Recorded) (opening : Spot) (limit : ℕ) → IsNeed rules calls opening limit kept.now call result }
{
    if kept[call] {
        Need::Untried
    } else {
        Need::Forgotten
    }
}

/// What is known of calls of which none was tried. An `Err` says that an allocation failed.
fn untried(alloc: Global, kept: &[bool]) -> Result<Vec<Need>, AllocError>
    ensures count { IfOk result (λ needs. length needs.items ≡ length kept.now) }
    ensures needs { IfOk result (λ needs. (rules : Rules) (calls : List Recorded) (opening : Spot) (limit : ℕ)
        → AreNeeds rules calls opening limit kept.now 0 needs.items) }
{
    let mut needs = Vec::new(alloc);
    for call in 0..kept.len() {
        needs.push(need_untried(kept, call))?;
    }
    Ok(needs)
}

/// The smallest part of a refusal: of calls that no order explains, it forgets as many as it can, and keeps those without which some
/// order would explain the record. Groups of calls are forgotten first, then single ones.
///
/// Of what may be spent, that it tries each call as long as something is left isn't promised: it says of each call what it knows.
///
/// An `Err` says that an allocation failed.
pub fn smallest_part(
    alloc: Global,
    rules: &Rules,
    calls: Vec<Recorded>,
    opening: &Spot,
    limits: PartLimits,
) -> Result<RefutedPart, AllocError>
    requires { IsExplained rules.now calls.items opening.now → ⊥ }
    ensures { IfOk result (IsRefutedPart rules.now calls.items opening.now limits.each) }
{
    let own = roles_of(alloc, &calls)?;
    let kept = all_kept(alloc, calls.len())?;
    let mut search = Shrinking {
        alloc,
        calls,
        own,
        each: limits.each,
        left: limits.all,
    };
    let kept = search.halved(rules, opening, kept)?;
    let (kept, needs) = search.settled(rules, opening, kept)?;
    let Shrinking { calls, own, .. } = search;
    let mut calls = calls;
    set_roles(&mut calls, &own);
    forget(&mut calls, &kept);
    Ok(RefutedPart { calls, kept, needs })
}
