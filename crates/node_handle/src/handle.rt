// A node on the heap, by a pointer that may be null.
ghost use Rattle.std.specs.Prelude.{◌≡◌, MatchOption};
ghost use Rattle.std.specs.Coded.{coded_option};
ghost use Rattle.std.specs.declared.option.Option.{Option as Maybe};
ghost use Rattle.std.specs.declared.option.Option.TheVariants.{None, Some};
ghost use Rattle.switch_node.specs.declared.owned.OwnedNode.{OwnedNode as Held};
ghost use Rattle.switch_node.specs.contracts.owned.OwnedNode.{the_row as held_row};
ghost use Rattle.owned_handle.specs.Held.{held};

use owned_handle::loose::Loose;
use std::alloc::Global;
use std::marker::Model;
use std::mem::replace;
use std::ptr::null_mut;
use switch_node::OwnedNode;

/// A node that a program knows by a pointer: none where the pointer is null.
#[repr(C)]
pub struct NodeHandle {
    at: *mut u8,
    alloc: Global,
    pub ghost value: { Maybe Held } by { coded_option held_row.coded },
}

impl Model for NodeHandle {
    ghost also_owns = { λ h. held held_row h.alloc h.at h.value };
}

unsafe impl Send for NodeHandle {}

impl NodeHandle {
    /// A handle without a node.
    pub fn empty(alloc: Global) -> NodeHandle
        ensures { result.value ≡ None }
    {
        NodeHandle {
            at: null_mut(),
            alloc,
        }
    }

    /// A handle of the node in the box, which it owns from now on.
    pub fn of(value: Box<OwnedNode>) -> NodeHandle
        ensures { result.value ≡ Some value.value }
    {
        NodeHandle::of_loose(Loose::of(value))
    }

    /// The node that the handle owned, none where it was empty.
    pub fn into_box(self) -> Option<Box<OwnedNode>>
        ensures { MatchOption result (self.value ≡ None) (λ b. self.value ≡ Some b.value) }
    {
        match self.into_loose() {
            Some(loose) => Some(loose.into_box()),
            None => None,
        }
    }

    /// Moves the box out, and leaves the handle empty.
    pub fn take(&mut self, alloc: Global) -> Option<Box<OwnedNode>>
        ensures emptied { self.new.value ≡ None }
        ensures taken { MatchOption result (self.old.value ≡ None) (λ b. self.old.value ≡ Some b.value) }
    {
        replace(self, NodeHandle::empty(alloc)).into_box()
    }

    /// Moves the box in, and drops what the handle held.
    pub fn put(&mut self, value: Box<OwnedNode>)
        ensures { self.new.value ≡ Some value.value }
    {
        *self = NodeHandle::of(value);
    }

    fn of_loose(loose: Loose<OwnedNode, Global>) -> NodeHandle
        ensures { result.value ≡ Some loose.value }
    {
        let Loose { at, alloc } = loose;
        NodeHandle {
            at: at as *mut u8,
            alloc,
        }
    }

    fn into_loose(self) -> Option<Loose<OwnedNode, Global>>
        ensures { MatchOption result (self.value ≡ None) (λ l. self.value ≡ Some l.value) }
    {
        let NodeHandle { at, alloc } = self;
        if at.is_null() {
            None
        } else {
            Some(Loose {
                at: at as *mut OwnedNode,
                alloc,
            })
        }
    }
}

impl Drop for NodeHandle {
    fn drop(self) {
        drop(self.into_box());
    }
}
