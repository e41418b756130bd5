ghost use Rattle.std.specs.Prelude.{◌≡◌, ◌≤◌, ◌<◌, ◌+◌, length, IfOk, IfErr, OnOk};
ghost use Rattle.picture.specs.Stacks.{end_of, start_of};

use crate::timeline_svg::PictureError;
use std::alloc::Global;
use std::marker::Model;

/// Places along one direction, each of which begins where the one before it ends. Contracts see where the first begins, and the sizes.
#[derive(Drop)]
pub struct Stack {
    first: u32,
    sizes: Vec<u32>,
    starts: Vec<u32>,
    end: u32,
}

impl Model for Stack {
    ghost use Rattle.picture.specs.Stacks.{IsLaidOut, StackValue};

    ghost Value = { StackValue };

    ghost view = { λ stack. record { first = stack.first; sizes = stack.sizes.items } };

    ghost invariant = { λ stack. IsLaidOut stack.first stack.sizes.items stack.starts.items stack.end };
}

impl Stack {
    /// Places of these sizes, the first of which begins there. [`PictureError::TooLarge`] where they end behind what a place can be.
    pub fn new(alloc: Global, first: u32, sizes: Vec<u32>) -> Result<Stack, PictureError>
        ensures { IfOk result (λ stack. stack ≡ record { first = first; sizes = sizes.items }) }
    {
        let mut starts = Vec::new(alloc);
        let mut end = first;
        for &size in &sizes {
            starts.push(end)?;
            end = end.checked_add(size).ok_or(PictureError::TooLarge)?;
        }
        Ok(Stack {
            first,
            sizes,
            starts,
            end,
        })
    }

    /// Where the place of that number begins: behind all places before it.
    pub fn start(&self, number: usize) -> Result<u32, PictureError>
        ensures value { IfOk result (λ start. start ≡ start_of self.now number) }
        ensures there { OnOk result (number < length self.now.sizes) }
        ensures missing { IfErr result (λ error. length self.now.sizes ≤ number) }
    {
        match self.starts.get(number) {
            Some(start) => Ok(*start),
            None => Err(PictureError::NoPlace),
        }
    }

    /// How large the place of that number is.
    pub fn size(&self, number: usize) -> Result<u32, PictureError>
        ensures value { IfOk result (λ size. start_of self.now number + size ≡ start_of self.now (number + 1)) }
        ensures there { OnOk result (number < length self.now.sizes) }
        ensures missing { IfErr result (λ error. length self.now.sizes ≤ number) }
    {
        match self.sizes.get(number) {
            Some(size) => Ok(*size),
            None => Err(PictureError::NoPlace),
        }
    }

    /// Where the last place ends.
    pub fn end(&self) -> u32
        ensures { result ≡ end_of self.now }
    {
        self.end
    }
}
