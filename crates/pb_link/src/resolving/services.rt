//! Services with the types that their methods mean.

ghost use Rattle.std.specs.Prelude.{◌≡◌, map, IfOk, OnOk};
ghost use Rattle.pb_declarations.specs.View.{method_view, service_view};
ghost use Rattle.pb_link.specs.Resolved.{method_of_types};
ghost use Rattle.pb_link.specs.Resolving.{coming, first_type, second_type, methods_read, service_read, services_read, each_behind, behind_one, behind_service};
ghost use Rattle.pb_link_names.specs.View.{declaration_view, type_names_view};

use crate::resolving::types::{first_type, full_name_or, second_type};
use crate::resolving::upcoming::Upcoming;
use pb_declarations::{MethodDecl, ServiceDecl};
use pb_link_names::declaration::Declaration;
use pb_link_names::found::TypeNames;
use std::alloc::{AllocError, Global};

/// A method whose type names came to this.
fn resolve_method(
    alloc: Global,
    row: &[Declaration],
    names: TypeNames,
    method: &MethodDecl,
) -> Result<MethodDecl, AllocError>
    ensures { IfOk result (λ m. method_view m
        ≡ method_of_types (method_view method.now)
        (first_type (map declaration_view row.now) (type_names_view names))
        (second_type (map declaration_view row.now) (type_names_view names))) }
{
    let name = method.name.clone()?;
    let input = full_name_or(alloc, &method.input, first_type(row, names))?;
    let output = full_name_or(alloc, &method.output, second_type(row, names))?;
    Ok(MethodDecl {
        name,
        input,
        output,
        client_stream: method.client_stream,
        server_stream: method.server_stream,
    })
}

fn resolve_methods(
    alloc: Global,
    row: &[Declaration],
    names: &mut Upcoming,
    methods: &[MethodDecl],
) -> Result<Vec<MethodDecl>, AllocError>
    ensures methods { IfOk result (λ v. map method_view v.items
        ≡ methods_read (map declaration_view row.now) (coming names.old)
        (map method_view methods.now)) }
    ensures behind { OnOk result (coming names.new
        ≡ each_behind behind_one (map method_view methods.now) (coming names.old)) }
{
    let mut resolved: Vec<MethodDecl> = Vec::new(alloc);
    for method in methods {
        let came_to = names.next();
        let made = resolve_method(alloc, row, came_to, method)?;
        resolved.push(made)?;
    }
    Ok(resolved)
}

fn resolve_service(
    alloc: Global,
    row: &[Declaration],
    names: &mut Upcoming,
    service: &ServiceDecl,
) -> Result<ServiceDecl, AllocError>
    ensures service { IfOk result (λ s. service_view s
        ≡ service_read (map declaration_view row.now) (coming names.old)
        (service_view service.now)) }
    ensures behind { OnOk result (coming names.new
        ≡ behind_service (service_view service.now) (coming names.old)) }
{
    names.skip(1);
    let methods = resolve_methods(alloc, row, names, &service.methods)?;
    let name = service.name.clone()?;
    Ok(ServiceDecl { name, methods })
}

/// The services of a file.
pub(crate) fn resolve_services(
    alloc: Global,
    row: &[Declaration],
    names: &mut Upcoming,
    services: &[ServiceDecl],
) -> Result<Vec<ServiceDecl>, AllocError>
    ensures services { IfOk result (λ v. map service_view v.items
        ≡ services_read (map declaration_view row.now) (coming names.old)
        (map service_view services.now)) }
    ensures behind { OnOk result (coming names.new
        ≡ each_behind behind_service (map service_view services.now) (coming names.old)) }
{
    let mut resolved: Vec<ServiceDecl> = Vec::new(alloc);
    for service in services {
        let made = resolve_service(alloc, row, names, service)?;
        resolved.push(made)?;
    }
    Ok(resolved)
}
