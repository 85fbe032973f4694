ghost use Rattle.std.specs.Prelude.{◌≡◌, ℕ, ◌<◌, ◌↔◌, List, length, EachIndex, IfOk, IsTrue, replicate, slice_index, slice_set};

use std::alloc::{AllocError, Global};
use std::marker::Model;

/// A number for each page.
#[derive(Drop)]
pub struct PageNumbers {
    numbers: Vec<u64>,
}

impl Model for PageNumbers {
    ghost Value = { List ℕ };

    ghost view = { λ p. p.numbers.items };
}

impl PageNumbers {
    /// 0 for each page.
    pub fn zeros(alloc: Global, pages: usize) -> Result<Self, AllocError>
        ensures { IfOk result (λ numbers. numbers ≡ replicate pages 0) }
    {
        Ok(PageNumbers {
            numbers: vec![in alloc; 0; pages]?,
        })
    }

    pub fn from_slice(alloc: Global, numbers: &[u64]) -> Result<Self, AllocError>
        ensures { IfOk result (λ made. made ≡ numbers.now) }
    {
        Ok(PageNumbers {
            numbers: Vec::from_slice(alloc, numbers)?,
        })
    }

    /// How many pages there are.
    pub fn len(&self) -> usize
        ensures { result ≡ length self.now }
    {
        self.numbers.len()
    }

    pub fn get(&self, page: u32) -> u64
        requires { page < length self.now }
        ensures { result ≡ slice_index self.now page }
    {
        self.numbers[page as usize]
    }

    pub fn set(&mut self, page: u32, number: u64)
        requires { page < length self.old }
        ensures { self.new ≡ slice_set self.old page number }
    {
        self.numbers[page as usize] = number;
    }

    pub fn is_zero(&self) -> bool
        ensures { IsTrue result ↔ EachIndex self.now (λ page. slice_index self.now page ≡ 0) }
    {
        self.numbers.iter().all(|number| *number == 0)
    }
}
