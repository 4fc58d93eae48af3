//! How a runtime defines its classes.

use crate::class_parts::class_of;
use crate::class_values::{CqClassRanges, CqLineEntry, CqMethodRanges};
use crate::codes::{CQ_MISUSED, CQ_OK};
use crate::handle::CqService;
use std::alloc::Global;
use ti_service::{ClassInfo, Defined, Service};

/// Defines a class, or gives the code of the refusal.
fn define(service: &mut Service, class: ClassInfo) -> Result<Defined, u32>
    ensures sees { SeesTable service.old service.new }
    ensures defined { IfOk result (λ d. IsDefined service.old.cell.classes service.new.cell.classes class d) }
    ensures refused { IfErr result (λ code. RefusesBy service.new.cell.classes.seen class code) }
{
    match service.define_class(class) {
        Ok(defined) => Ok(defined),
        Err((error, _)) => Err(error.number()),
    }
}

/// Defines a class with its methods.
#[unsafe(no_mangle)]
pub extern "C" fn cq_define_class(
    alloc: Global,
    service: &mut CqService,
    text: &[u8],
    class: &CqClassRanges,
    methods: &[CqMethodRanges],
    lines: &[CqLineEntry],
    class_no: &mut u32,
    first_method: &mut u32,
) -> u32
    ensures { Defines (given text.now class.now methods.now lines.now) class_no.old class_no.new first_method.old first_method.new service.old service.new result }
{
    let Some(service) = service.service() else {
        return CQ_MISUSED;
    };
    let info = match class_of(alloc, text, lines, *class, methods) {
        Ok(info) => info,
        Err(error) => return error.number(),
    };
    match define(service, info) {
        Ok(defined) => {
            *class_no = defined.class.0;
            *first_method = defined.first.0;
            CQ_OK
        }
        Err(code) => code,
    }
}

ghost use Rattle.std.specs.Prelude.{IfErr, IfOk};
ghost use Rattle.ti_methods.specs.Classes.{IsDefined};
ghost use Rattle.ti_capi.specs.Classes.{Defines, RefusesBy, SeesTable};
ghost use Rattle.ti_capi.specs.Defining.{given};
