//! The pages of requests that are refused before the service is called.
ghost use Rattle.std.specs.Prelude.{true, false, IfOk, IfSome};
ghost use Rattle.front.specs.declared.request_fault.RequestFault.TheVariants.{Head};
ghost use Rattle.front.specs.Fault.{fault_of};
ghost use Rattle.front.specs.Work.{IsRefusedPage};

use crate::explaining::{head_reason, sentence};
use crate::page::{explained_page, fault_page};
use crate::pieces::Page;
use crate::request_fault::RequestFault;
use doc::Mapping;
use std::alloc::{AllocError, Global};
use wire::{HeadFault, Request};

/// The page of a request that is refused. If `greets` is true, a sentence says why.
pub(crate) fn refused_page(
    alloc: Global,
    greets: bool,
    index: &str,
    mapping: &Mapping,
    fault: &RequestFault,
    request: &Request,
) -> Result<Page, AllocError>
    ensures { IfOk result (λ page. IfSome (fault_of fault.now) (λ f. IsRefusedPage greets f page)) }
{
    if greets {
        let why = sentence(alloc, true, index, mapping, fault, request)?;
        return explained(alloc, fault, why.as_str());
    }
    plain(alloc, fault)
}

/// The page of a request whose head can't be read. If `greets` is true, a sentence says why.
pub(crate) fn broken_page(alloc: Global, greets: bool, fault: HeadFault) -> Result<Page, AllocError>
    ensures { IfOk result (λ page. IfSome (fault_of (Head fault)) (λ f. IsRefusedPage greets f page)) }
{
    if greets {
        return explained(alloc, &RequestFault::Head(fault), head_reason(fault));
    }
    plain(alloc, &RequestFault::Head(fault))
}

fn explained(alloc: Global, fault: &RequestFault, why: &str) -> Result<Page, AllocError>
    ensures { IfOk result (λ page. IfSome (fault_of fault.now) (λ f. IsRefusedPage true f page)) }
{
    Ok(Page::of(alloc, explained_page(alloc, fault, why)?))
}

fn plain(alloc: Global, fault: &RequestFault) -> Result<Page, AllocError>
    ensures { IfOk result (λ page. IfSome (fault_of fault.now) (λ f. IsRefusedPage false f page)) }
{
    Ok(Page::of(alloc, fault_page(alloc, fault)?))
}
