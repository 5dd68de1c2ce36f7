//! The orders of one event, in a place that is filled again and again.
ghost use Rattle.std.specs.Prelude.{◌≡◌, ◌+◌, ◌<◌, ◌==◌, [], ◌∷◌, ◌++◌, length, slice_get};

use crate::console::Order;
use std::marker::Model;
use std::{array, mem};

/// How many orders one event gives at most.
pub const ORDERS_MAX: usize = 8;

/// The orders of one event, in their order, at most `ORDERS_MAX`, which lie in the value itself. Contracts see the list. It
/// costs nothing to empty it: an order has room for the bytes of a transfer, over which nothing is written.
#[derive(Debug, Drop)]
pub struct Orders {
    places: [Order; ORDERS_MAX],
    len: usize,
}

impl Model for Orders {
    ghost use Rattle.std.specs.Prelude.{◌≡◌, ◌≤◌, length, take};
    ghost use Rattle.arrayvec.specs.ArrayVec.{ArrayVec};
    ghost use Rattle.psd_base.specs.declared.console.Order.{Order};
    ghost use Rattle.psd_base.specs.declared.orders.TheConstants.{ORDERS_MAX};

    ghost Value = { ArrayVec Order };

    ghost view = { λ orders. record { items = take orders.len orders.places } };

    ghost invariant = { λ orders. record {
      within : orders.len ≤ ORDERS_MAX;
      size : length orders.places ≡ ORDERS_MAX;
    } };
}

impl Orders {
    /// No orders.
    pub fn new() -> Orders
        ensures { result.items ≡ [] }
    {
        Orders {
            places: array::from_fn(|_| Order::default()),
            len: 0,
        }
    }

    /// Whether there are none.
    #[inline(always)]
    pub fn is_empty(&self) -> bool
        ensures { result ≡ (length self.now.items == 0) }
    {
        self.len == 0
    }

    /// The orders.
    #[inline(always)]
    pub fn as_slice(&self) -> &[Order]
        ensures { result.now ≡ self.now.items }
    {
        &self.places[..self.len]
    }

    /// Appends an order. There is room for it.
    #[inline(always)]
    #[tactic(auto, using(std::proofs::lemmas::List::take_more_set))]
    pub fn push(&mut self, order: Order)
        requires { length self.old.items < ORDERS_MAX }
        ensures { self.new.items ≡ self.old.items ++ order ∷ [] }
    {
        self.places[self.len] = order;
        self.len += 1;
    }

    /// Drops every order.
    #[inline(always)]
    pub fn clear(&mut self)
        ensures { self.new.items ≡ [] }
    {
        self.len = 0;
    }

    /// The first order, if there is one.
    pub fn into_first(self) -> Option<Order>
        ensures { result ≡ slice_get self.items 0 }
    {
        let mut orders = self;
        if orders.len == 0 {
            return None;
        }
        Some(mem::take(&mut orders.places[0]))
    }
}
