//! Sets of privileges.
ghost use Rattle.std.specs.Prelude.{◌≡◌, IsTrue, ◌↔◌, ◌≤◌, ◌+◌, OnOk, OnErr, IfOk, IfErr, [], length, is_ok, vec_len, vec_capacity};
ghost use Rattle.std.specs.List.{insert as insert_at};
ghost use Rattle.df_label.specs.Ascending.{IsAscending};
ghost use Rattle.df_label.specs.Privilege.{privilege_cmp};
ghost use Rattle.df_label.specs.Privileges.{contains, add, add_all};

use crate::Privilege;
use df_memory::NoMemory;
use std::alloc::Global;
use std::marker::Model;
use std::sync::Arc;

/// A set of privileges. A contract sees it as the ascending list of its privileges, by tag and
/// then right, without repeats. The empty set takes no memory, and copies share.
#[derive(Debug, Drop)]
pub struct Privileges {
    list: Option<Arc<Vec<Privilege>>>,
    alloc: Global,
}

impl Model for Privileges {
    ghost use Rattle.std.specs.Prelude.{List};
    ghost use Rattle.df_label.specs.declared.privilege.Privilege.{Privilege};
    ghost use Rattle.df_label.specs.Ascending.{IsAscending};
    ghost use Rattle.df_label.specs.Privilege.{privilege_cmp};
    ghost use Rattle.df_label.specs.code.Shared.{items_of};

    ghost Value = { List Privilege };

    ghost view = { λ p. items_of p.list };

    ghost invariant = { λ p. IsAscending privilege_cmp (items_of p.list) };
}

impl Privileges {
    /// No privileges.
    pub const fn new(alloc: Global) -> Privileges
        ensures { result ≡ [] }
    {
        Privileges { list: None, alloc }
    }

    /// The set of privileges that stand in order.
    pub fn from_ascending(list: Vec<Privilege>) -> Result<Privileges, NoMemory>
        requires { IsAscending privilege_cmp list.items }
        ensures { IfOk result (λ ps. ps ≡ list.items) }
    {
        let alloc = *list.allocator();
        if list.is_empty() {
            return Ok(Privileges::new(alloc));
        }
        let list = Some(Arc::new(alloc, list)?);
        Ok(Privileges { list, alloc })
    }

    pub fn as_slice(&self) -> &[Privilege]
        ensures value { result.now ≡ self.now }
        ensures ascending { IsAscending privilege_cmp self.now }
    {
        match &self.list {
            None => &[],
            Some(list) => list.as_slice(),
        }
    }

    pub fn contains(&self, p: &Privilege) -> bool
        ensures { result ≡ contains self.now p.now }
    {
        place(self.as_slice(), p).is_ok()
    }

    /// Adds a privilege, in place where nobody shares these.
    pub fn add(&mut self, p: &Privilege) -> Result<(), NoMemory>
        ensures ok { OnOk result (self.new ≡ add self.old p.now) }
        ensures err { OnErr result (self.new ≡ self.old) }
    {
        let Err(k) = place(self.as_slice(), p) else {
            return Ok(());
        };
        if let Some(list) = &mut self.list {
            if let Some(own) = Arc::get_mut(list) {
                own.insert(k, p.copy()?)?;
                return Ok(());
            }
        }
        let list = inserted(self.alloc, self.as_slice(), k, p)?;
        self.list = Some(Arc::new(self.alloc, list)?);
        Ok(())
    }

    /// Adds all privileges or none, in place where nobody shares these.
    pub fn add_all(&mut self, privileges: Vec<Privilege>) -> Result<(), NoMemory>
        ensures ok { OnOk result (self.new ≡ add_all self.old privileges.items) }
        ensures err { OnErr result (self.new ≡ self.old) }
    {
        if privileges.is_empty() {
            return Ok(());
        }
        if let Some(list) = &mut self.list {
            if let Some(own) = Arc::get_mut(list) {
                own.reserve(privileges.len())?;
                put_all(own, privileges);
                return Ok(());
            }
        }
        let mut all = with_room(self.alloc, self.as_slice(), privileges.len())?;
        put_all(&mut all, privileges);
        self.list = Some(Arc::new(self.alloc, all)?);
        Ok(())
    }

    /// An equal set, with no allocation: the privileges are shared.
    pub fn copy(&self) -> Result<Privileges, NoMemory>
        ensures value { IfOk result (λ ps. ps ≡ self.now) }
        ensures ascending { IsAscending privilege_cmp self.now }
    {
        let list = match &self.list {
            None => None,
            Some(list) => Some(Arc::try_clone(list)?),
        };
        Ok(Privileges {
            list,
            alloc: self.alloc,
        })
    }

    pub fn same(&self, other: &Privileges) -> bool
        ensures { IsTrue result ↔ self.now ≡ other.now }
    {
        same(self.as_slice(), other.as_slice())
    }
}

// Where the privilege stands, or where it would. Those that come in order cost one comparison.
fn place(list: &[Privilege], p: &Privilege) -> Result<usize, usize>
    requires { IsAscending privilege_cmp list.now }
    ensures found { contains list.now p.now ≡ is_ok result }
    ensures bound { IfErr result (λ k. k ≤ length list.now) }
    ensures kept { OnOk result (add list.now p.now ≡ list.now) }
    ensures new { IfErr result (λ k. add list.now p.now ≡ insert_at list.now k p.now) }
    ensures ascending { IfErr result (λ k. IsAscending privilege_cmp (insert_at list.now k p.now)) }
{
    if let Some(last) = list.last() {
        if last.cmp(p).is_lt() {
            return Err(list.len());
        }
    }
    list.binary_search(p)
}

fn inserted(
    alloc: Global,
    list: &[Privilege],
    k: usize,
    p: &Privilege,
) -> Result<Vec<Privilege>, NoMemory>
    requires { k ≤ length list.now }
    ensures { IfOk result (λ v. v.items ≡ insert_at list.now k p.now) }
{
    let mut copies = Vec::with_capacity(alloc, list.len().saturating_add(1))?;
    for q in list {
        copies.push(q.copy()?)?;
    }
    copies.insert(k, p.copy()?)?;
    Ok(copies)
}

// Copies, with room for so many more.
fn with_room(alloc: Global, list: &[Privilege], more: usize) -> Result<Vec<Privilege>, NoMemory>
    ensures items { IfOk result (λ v. v.items ≡ list.now) }
    ensures room { IfOk result (λ v. vec_len v + more ≤ vec_capacity v) }
{
    let mut copies = Vec::new(alloc);
    for q in list {
        copies.push(q.copy()?)?;
    }
    copies.reserve(more)?;
    Ok(copies)
}

// Puts each privilege in its place. There is room for all.
fn put_all(list: &mut Vec<Privilege>, privileges: Vec<Privilege>)
    requires ascending { IsAscending privilege_cmp list.old.items }
    requires room { vec_len list.old + vec_len privileges ≤ vec_capacity list.old }
    ensures added { list.new.items ≡ add_all list.old.items privileges.items }
    ensures ascending { IsAscending privilege_cmp list.new.items }
{
    for p in privileges {
        if let Err(k) = place(list.as_slice(), &p) {
            let Ok(()) = list.insert(k, p) else {
                unreachable!();
            };
        }
    }
}

fn same(list: &[Privilege], other: &[Privilege]) -> bool
    ensures { IsTrue result ↔ list.now ≡ other.now }
{
    list == other
}
