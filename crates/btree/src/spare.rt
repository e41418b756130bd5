ghost use Rattle.std.specs.Prelude.{◌≡◌, ◌≤◌, suc, IfErr, OnOk, IsSome, vec_len};
ghost use Rattle.btree.specs.Splits.{AllBlank, IsStocked, IsTidy};

use crate::node::Node;
use keybytes::{Fault, KEY_INLINE, Key, KeyMemory};
use std::alloc::Global;
use tree_nodes::{Fan, Leaf};

/// The memory that inserts use.
#[derive(Drop)]
pub struct Spare {
    pub leaf: Option<Leaf>,
    pub key: Option<KeyMemory>,
    pub fans: Vec<Fan<Node>>,
}

impl Spare {
    /// None as yet.
    pub fn new(alloc: Global) -> Spare
        ensures { IsTidy result }
    {
        Spare {
            leaf: None,
            key: None,
            fans: Vec::new(alloc),
        }
    }

    /// Takes what an insert into a tree of that height may use.
    pub fn fill(&mut self, alloc: Global, height: usize) -> Result<(), Fault>
        requires { IsTidy self.old }
        ensures tidy { IsTidy self.new }
        ensures ok { OnOk result (IsStocked self.new (suc height)) }
        ensures memory { IfErr result (λ fault. fault ≡ Fault.Memory) }
    {
        if self.leaf.is_none() {
            self.leaf = Some(Leaf::new(alloc)?);
        }
        if self.key.is_none() {
            self.key = Some(KeyMemory::new(alloc)?);
        }
        fill_fans(&mut self.fans, alloc, height)
    }

    /// A copy of the key; a long one lies in the memory for it.
    pub fn copy(&mut self, key: &Key) -> Key
        requires { IsSome self.old.key }
        ensures copy { result ≡ key.now }
        ensures leaf { self.new.leaf ≡ self.old.leaf }
        ensures fans { self.new.fans ≡ self.old.fans }
    {
        if key.bytes().len() > KEY_INLINE {
            return match self.key.take() {
                Some(memory) => memory.copy(key),
                None => unreachable!(),
            };
        }
        match key.clone() {
            Ok(copy) => copy,
            Err(_) => unreachable!(),
        }
    }
}

/// Takes fans until there are more than that many.
pub fn fill_fans(fans: &mut Vec<Fan<Node>>, alloc: Global, height: usize) -> Result<(), Fault>
    requires { AllBlank fans.old.items }
    ensures blank { AllBlank fans.new.items }
    ensures ok { OnOk result (suc height ≤ vec_len fans.new) }
    ensures memory { IfErr result (λ fault. fault ≡ Fault.Memory) }
{
    while fans.len() <= height {
        let fan = Fan::new(alloc)?;
        fans.push(fan)?;
    }
    Ok(())
}
