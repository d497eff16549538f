//! A stream of requests.
ghost use Rattle.streetmap_ledger.specs.State.{State};
ghost use Rattle.streetmap_web.specs.Site.{site_value};
ghost use Rattle.streetmap_web.specs.Conditions.{ByCalls};
ghost use Rattle.streetmap_web.specs.Turns.{IsHandedOn};
ghost use Rattle.streetmap_guarantee.specs.Streams.{GuaranteeOfStream};

use std::alloc::Global;
use std::io::BufRead;
use streetmap_ledger::Durable;
use streetmap_tags::Tagged;
use streetmap_text_lines::Flush;
use streetmap_web::{Served, Site, serve};

/// Serves a stream of requests over a keeper: reads them from the reader, and writes their answers
/// to the writer, in order, up to the first that closes the connection (`streetmap_web::serve`).
pub fn pipe<K: Durable + Tagged, R: BufRead, W: Flush>(
    alloc: Global,
    keeper: &mut K,
    site: &Site,
    reader: &mut R,
    writer: &mut W,
) -> Served
    ensures guarantee { K.model.is_clean keeper.new → (s : State) →
        K.model.represents keeper.old s →
        GuaranteeOfStream K.holds (K.leaves keeper.new) (site_value site.now) s result.end
        (R.remaining reader.old) (R.remaining reader.new)
        (W.contents writer.old) (W.contents writer.new) }
    ensures calls { ByCalls K.model keeper.old keeper.new }
    ensures flushed { IsHandedOn result.end result.answers
        (W.is_flushed writer.old) (W.is_flushed writer.new) }
{
    serve(alloc, keeper, site, reader, writer)
}
