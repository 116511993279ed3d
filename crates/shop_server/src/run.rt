//! The program's call: words, a source, a sink, a keeper and a clock.
ghost use Rattle.std.specs.Prelude.{◌≡◌, ◌⊎◌, ◌↔◌, ℕ, List, Some, None};
ghost use Rattle.shop_outside.specs.Causes.{Rose};
ghost use Rattle.shop_outside.specs.declared.keeper.Kept.{Kept};
ghost use Rattle.shop_core.specs.History.{State};
ghost use Rattle.shop_core.specs.Shops.{IsShop, ShopView};
ghost use Rattle.shop_http.specs.Requests.{requests};
ghost use Rattle.shop_check.specs.Damage.{Damage, first_damage};
ghost use Rattle.shop_server.specs.Answering.{Gives};
ghost use Rattle.shop_server.specs.Cutting.{cut};
ghost use Rattle.shop_server.specs.Session.{AtMoment, Session, most_requests};
ghost use Rattle.shop_server.specs.Words.{IsCheck, IsNoLine, IsRun};
ghost use Rattle.shop_server.specs.Reports.{report_of};
ghost use Rattle.shop_server.specs.Run.{HasChecked, HasRun, HasWritten, IsCutShort, Keeps, fatal_text, number_at};

use crate::check::check;
use crate::desk::Desk;
use crate::served::ServedRequests;
use crate::session::{Ended, serve};
use crate::status::{Status, status_of, status_unopened};
use crate::words::{Verb, verb_of};
use shop_core::{ShopState, open_shop};
use shop_outside::{Clock, Keeper, Pair, Sink, Source};
use shop_routes::Routes;
use std::alloc::Global;

/// Serves one connection over a source and a sink, and gives the shop's keeper back.
fn serve_over<S: Source, K: Sink, P: Keeper + Drop, C: Clock>(
    alloc: Global,
    source: &mut S,
    sink: &mut K,
    shop: ShopState<P>,
    clock: &mut C,
    routes: &Routes,
) -> (P, Ended)
    ensures session { (last : ShopView) × Session (AtMoment Gives) fatal_text cut most_requests
        (record { answerer = shop; coming = C.coming clock.old }) (record { answerer = last; coming = C.coming clock.new })
        (S.left source.old) (S.left source.new) (K.written sink.old) (K.written sink.new) result.1
        × IsShop last × (P.content result.0 ≡ last.content) × (P.keep_faults result.0 ≡ last.faults) }
    ensures read_failed { result.1 ≡ Ended.ReadFault → Rose (S.read_faults source.old) (S.read_faults source.new) }
    ensures write_failed { result.1 ≡ Ended.WriteFault → Rose (K.write_faults sink.old) (K.write_faults sink.new) }
    ensures reads_kept { (result.1 ≡ Ended.ReadFault → ⊥) → S.read_faults source.new ≡ S.read_faults source.old }
    ensures writes_kept { (result.1 ≡ Ended.WriteFault → ⊥) → K.write_faults sink.new ≡ K.write_faults sink.old }
{
    let mut desk = Desk::new(alloc, shop);
    let mut link = Pair { source, sink };
    let ended = serve(
        alloc,
        &mut link,
        &ServedRequests { routes },
        &mut desk,
        clock,
    );
    (desk.close(), ended)
}

/// Opens the shop that the keeper holds, and serves one connection over it.
fn run<S: Source, K: Sink, P: Keeper + Drop, C: Clock>(
    alloc: Global,
    source: &mut S,
    sink: &mut K,
    keeper: P,
    clock: &mut C,
) -> (P, Status)
    ensures ran { HasRun
        (record { left = S.left source.old; written = K.written sink.old; content = P.content keeper; faults = P.keep_faults keeper; coming = C.coming clock.old })
        (record { left = S.left source.new; written = K.written sink.new; content = P.content result.0; faults = P.keep_faults result.0; coming = C.coming clock.new })
        result.1.number }
    ensures read_fault { result.1.number ≡ 3 → Rose (S.read_faults source.old) (S.read_faults source.new) }
    ensures write_fault { result.1.number ≡ 4 → Rose (K.write_faults sink.old) (K.write_faults sink.new) }
    ensures reads_kept { (result.1.number ≡ 3 → ⊥) → S.read_faults source.new ≡ S.read_faults source.old }
    ensures writes_kept { (result.1.number ≡ 4 → ⊥) → K.write_faults sink.new ≡ K.write_faults sink.old }
{
    let Ok(routes) = Routes::new(alloc) else {
        return (keeper, Status { number: 9 });
    };
    match open_shop(alloc, keeper) {
        Ok(shop) => {
            let (keeper, ended) = serve_over(alloc, source, sink, shop, clock, &routes);
            (keeper, status_of(ended))
        }
        Err((keeper, fault)) => (keeper, status_unopened(&fault)),
    }
}

/// Runs the program over the words behind its name.
///
/// At the one word `run` the shop that the keeper holds is opened, requests are read from the source and answered on the sink, and
/// accepted writes are kept by the keeper. The clock is read once for each request. At the one word `check` the shop is opened and
/// reported on the sink: `rows R` and `number N`, a line each, or `damaged KEY RULE`. The keeper comes back, and holds what the
/// accepted writes led to, where it tells. The clauses speak of what was read, written and kept in the end. That what is due
/// is written before more is read is how the loop is built, and is tested with a client that waits; that a write is kept before it is
/// answered is how the answerer is built, and is tested with a sink that fails at the answer.
///
/// | Status | Where |
/// |---|---|
/// | 0 | the input ended between requests; for `check`, the shop is sound |
/// | 2 | the words are no command line of the program: nothing is read or written |
/// | 3, 4 | a read, a write failed: only where that object's count of faults rose |
/// | 5 | the keeper failed when it was opened: only where its count of faults rose |
/// | 6 | the input ended inside a request |
/// | 7 | what the keeper holds is damaged |
/// | 9 | memory for the paths, the rows, the buffer or the report was refused |
/// | 10 | 1,000,000 requests were answered |
/// | 12 | what was left is no request however it goes on, or a request whose answer isn't there yet: it was refused |
pub fn run_shop<S: Source, K: Sink, P: Keeper + Drop, C: Clock>(
    alloc: Global,
    words: &[String],
    source: &mut S,
    sink: &mut K,
    keeper: P,
    clock: &mut C,
) -> (P, Status)
    // Other words are a usage fault, and nothing is asked of what is handed in.
    ensures usage { (result.1.number ≡ 2) ↔ IsNoLine words.now }
    ensures untouched { IsNoLine words.now
        → (source.new ≡ source.old) × (sink.new ≡ sink.old) × (clock.new ≡ clock.old) × (result.0 ≡ keeper) }

    // `run`: the responses to the requests cut off the bytes read are written, and nothing else, over the rows that the keeper
    // held and the writes accepted before; and the keeper that comes back holds what they led to.
    ensures ran { IsRun words.now → HasRun
        (record { left = S.left source.old; written = K.written sink.old; content = P.content keeper; faults = P.keep_faults keeper; coming = C.coming clock.old })
        (record { left = S.left source.new; written = K.written sink.new; content = P.content result.0; faults = P.keep_faults result.0; coming = C.coming clock.new })
        result.1.number }

    // `check`: what the keeper holds is reported, and no request is read.
    ensures checked { IsCheck words.now → HasChecked
        (record { left = S.left source.old; written = K.written sink.old; content = P.content keeper; faults = P.keep_faults keeper; coming = C.coming clock.old })
        (record { left = S.left source.new; written = K.written sink.new; content = P.content result.0; faults = P.keep_faults result.0; coming = C.coming clock.new })
        result.1.number }
    ensures unread { IsCheck words.now → (source.new ≡ source.old) × (clock.new ≡ clock.old) }

    // A fault has a cause, and is answered.
    ensures read_fault { result.1.number ≡ 3 → Rose (S.read_faults source.old) (S.read_faults source.new) }
    ensures write_fault { result.1.number ≡ 4 → Rose (K.write_faults sink.old) (K.write_faults sink.new) }
    ensures store_fault { result.1.number ≡ 5 → Rose (P.keep_faults keeper) (P.keep_faults result.0) }
    ensures reads_kept { (result.1.number ≡ 3 → ⊥) → S.read_faults source.new ≡ S.read_faults source.old }
    ensures writes_kept { (result.1.number ≡ 4 → ⊥) → K.write_faults sink.new ≡ K.write_faults sink.old }

    // Where nothing failed and memory sufficed, the status is that of what the keeper holds and of the whole input.
    ensures exact { (all : List ℕ) (start : State) → IsRun words.now → S.left source.old ≡ Some all → Keeps (P.content keeper) start
        → IsCutShort result.1.number ⊎ (result.1.number ≡ number_at (requests cut most_requests all).ending) }
    ensures damaged { (held : Kept) (damage : Damage) → IsRun words.now → P.content keeper ≡ Some held → first_damage held.rows ≡ Some damage
        → (IsCutShort result.1.number ⊎ (result.1.number ≡ 7)) × (K.written sink.new ≡ K.written sink.old) }
    ensures sound { (start : State) → IsCheck words.now → Keeps (P.content keeper) start
        → IsCutShort result.1.number ⊎ (result.1.number ≡ 0) }
    ensures reported { (held : Kept) → IsCheck words.now → P.content keeper ≡ Some held
        → IsCutShort result.1.number ⊎ (result.1.number ≡ (report_of held).status) }

    // What `run` writes is a front of the output for the whole input, and all of it where the status isn't 3, 4, 5 or 9. Each answer
    // is of its own moment of the clock, and there are at most as many 503 as the keeper's count rose by.
    ensures answered { (all before : List ℕ) (start : State) → IsRun words.now
        → S.left source.old ≡ Some all → K.written sink.old ≡ Some before → Keeps (P.content keeper) start
        → HasWritten start (C.coming clock.old) (P.keep_faults keeper) (P.keep_faults result.0) all before (K.written sink.new) result.1.number }
{
    match verb_of(words) {
        None => (keeper, Status { number: 2 }),
        Some(Verb::Run) => run(alloc, source, sink, keeper, clock),
        Some(Verb::Check) => check(alloc, sink, keeper),
    }
}
