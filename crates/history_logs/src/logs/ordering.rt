//! The order in which calls took effect.
ghost use Rattle.std.specs.Prelude.{◌≡◌, ◌<◌, ◌++◌, ◌∷◌, [], All, IfErr, IfOk, IfNone, OnOk, Some, length};
ghost use Rattle.std.specs.List.{AllZip};
ghost use Rattle.histories.specs.Frontier.{IsFrontOf};
ghost use Rattle.history_logs.specs.Good.{IsOrderly};
ghost use Rattle.history_logs.specs.Judging.{AreJudged, AreOrdered, IsFoundOf};
ghost use Rattle.history_logs.specs.Logs.{BeginsAt, IsSeenRightly, StepOf, news};
ghost use Rattle.history_logs.specs.Orders.{IsOrderOf};
ghost use Rattle.history_logs.specs.EventLines.{HasEventLines};

use super::judging::{earlier, explore};
use super::service::LogService;
use super::verdict::{Order, Verdict};
use histories::{Cut, Window, order_in};
use service_conformance::conformance::WatchedService;
use std::alloc::{AllocError, Global};

/// The lines in which these calls begin.
fn lines_of(alloc: Global, begins: &[usize], calls: &[usize]) -> Result<Vec<usize>, AllocError>
    requires { All (λ call. call < length begins.now) calls.now }
    ensures { IfOk result (λ lines. AllZip (BeginsAt begins.now) calls.now lines.items) }
{
    let mut lines = Vec::new(alloc);
    for call in calls {
        lines.push(begins[*call])?;
    }
    Ok(lines)
}

/// The order of the first configuration to which all that was seen of the service has led.
fn order_of(
    alloc: Global,
    service: &LogService,
    window: &Window<WatchedService>,
) -> Result<Order, AllocError>
    requires orderly { IsOrderly service.now }
    requires front { IsFrontOf (StepOf service.now) window.now.front service.now.events
        (news service.now) }
    requires some { 0 < length window.now.front.configs.items }
    ensures { IfOk result (IsOrderOf service.now) }
{
    let calls = order_in(alloc, window)?;
    let lines = lines_of(alloc, service.begins(), &calls)?;
    Ok(Order {
        service: service.line().number,
        lines,
    })
}

/// Judges what was seen of a service. Returns what was found, with its line, unless orders of the
/// calls explain all. Where it is never cut, adds an order that does.
fn order_service(
    alloc: Global,
    log: &[u8],
    service: &LogService,
    cut: Cut,
    orders: &mut Vec<Order>,
) -> Result<Option<(usize, Verdict)>, AllocError>
    requires orderly { IsOrderly service.now }
    requires located { HasEventLines log.now service.now }
    ensures found { IfOk result (IsFoundOf log.now service.now) }
    ensures order { cut ≡ Cut.Never → IfOk result (λ found. IfNone found ((order : Order)
        × IsOrderOf service.now order
        × (orders.new.items ≡ orders.old.items ++ order ∷ []))) }
{
    match explore(alloc, log, service, cut)? {
        Ok(window) => match cut {
            Cut::WhereQuiet => Ok(None),
            Cut::Never => {
                let order = order_of(alloc, service, &window)?;
                orders.push(order)?;
                Ok(None)
            }
        },
        Err(found) => Ok(Some(found)),
    }
}

/// Judges what was seen of each service: what was found before all else, unless orders of the calls
/// explain all. Where it is never cut, there is an order for each service then.
pub(super) fn judge_services(
    alloc: Global,
    log: &[u8],
    services: &[LogService],
    cut: Cut,
) -> Result<Result<Vec<Order>, Verdict>, AllocError>
    requires orderly { All IsOrderly services.now }
    requires located { All (HasEventLines log.now) services.now }
    ensures right { IfOk result (λ found. OnOk found (All IsSeenRightly services.now)) }
    ensures orders { cut ≡ Cut.Never → IfOk result (λ found. IfOk found
        (λ orders. AreOrdered services.now orders.items)) }
    ensures found { IfOk result (λ found. IfErr found
        (λ verdict. AreJudged log.now services.now (Some verdict))) }
{
    let mut first: Option<(usize, Verdict)> = None;
    let mut orders = Vec::new(alloc);
    for service in services {
        first = earlier(first, order_service(alloc, log, service, cut, &mut orders)?);
    }
    match first {
        Some((_, verdict)) => Ok(Err(verdict)),
        None => Ok(Ok(orders)),
    }
}
