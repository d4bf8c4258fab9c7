// Dequeue and enqueue.
ghost use Rattle.std.specs.Prelude.{◌≡◌, length, drop};
ghost use Rattle.tables.specs.Layout.{OneOf};
ghost use Rattle.tables.specs.Lent.{Step as TablesStep};
ghost use Rattle.ledger.specs.Ledger as ledger;
ghost use Rattle.ledger.specs.Services as ledger_services;
ghost use Rattle.queues.specs.Rings.{ring_of, RingFits};
ghost use Rattle.ledger.specs.Config.{config_in};
ghost use Rattle.command.specs.Configured.{Framed};
ghost use Rattle.executive.specs.Lent.{Step};
ghost use Rattle.executive.specs.Suits.{DoesOf, DoesWithSlotsOf};

use crate::lent::Lent;
use queues::Ring;
use tables::lent::Tables;
use tables::shape::Shape;

// The ring of a queue, within the tables.
pub fn ring(config: &[u8], shape: Shape, q: u8) -> Ring
    requires { Framed config.now shape × OneOf shape.queues q }
    ensures { (result ≡ ring_of (config_in config.now) shape q) × RingFits shape result }
{
    configuration::block::ring_of(config, shape, q as usize)
}

pub fn dequeue(lent: &mut Lent<'_, '_>, me: u8, q: u8)
    requires { OneOf lent.old.tables.now.shape.tasks me × OneOf lent.old.tables.now.shape.queues q }
    ensures { Step lent.old lent.new (λ g s d z d' z'. DoesWithSlotsOf g s d z d' z' (λ c L. ledger_services.issue c me (ledger.dequeue q) L)) }
{
    let r = ring(lent.config, lent.tables.shape, q);
    services::queue::dequeue(lent.tables, lent.slots, r, me, q);
}

// The entry is the part of the frame that starts at its sixth byte.
pub fn enqueue(tables: &mut Tables<'_>, config: &[u8], me: u8, q: u8, frame: &[u8])
    requires { Framed config.now tables.old.shape × OneOf tables.old.shape.tasks me × OneOf tables.old.shape.queues q
        × (length (drop 5 frame.now) ≡ (ledger_services.shape (config_in config.now) q).width) }
    ensures { TablesStep tables.old tables.new (λ s d d'. DoesOf (config_in config.now) s d d'
        (λ c L. ledger_services.issue c me (ledger.enqueue q (drop 5 frame.now)) L)) }
{
    let r = ring(config, tables.shape, q);
    services::queue::enqueue(tables, r, me, q, &frame[5..]);
}
