//! The message types and enums that files declare.

use pb_descr::{EnumDecl, FileDecl, MessageDecl};
use std::alloc::{AllocError, Global};

/// A message type or an enum: its file, its name, the index of the message that it is in, and what it holds itself.
#[derive(Clone, Copy)]
pub(crate) struct TypeNode<'f> {
    pub file: &'f FileDecl,
    pub name: &'f str,
    parent: Option<usize>,
    message: Option<&'f MessageDecl>,
}

/// All types that files declare, each after the one that it is in. A full name is made only when it is asked for.
pub(crate) fn declared_types<'f>(
    alloc: Global,
    files: &'f [FileDecl],
) -> Result<Vec<TypeNode<'f>>, AllocError> {
    let mut nodes = Vec::new(alloc);
    for file in files {
        push_messages(&mut nodes, file, None, file.messages.as_slice())?;
        push_enums(&mut nodes, file, None, file.enums.as_slice())?;
    }
    for index in 0..usize::MAX {
        let Some(node) = nodes.as_slice().get(index).copied() else {
            return Ok(nodes);
        };
        push_parts(&mut nodes, index, node)?;
    }
    Ok(nodes)
}

/// Appends the types that a type declares.
fn push_parts<'f>(
    nodes: &mut Vec<TypeNode<'f>>,
    index: usize,
    node: TypeNode<'f>,
) -> Result<(), AllocError> {
    if let Some(message) = node.message {
        push_messages(nodes, node.file, Some(index), message.messages.as_slice())?;
        push_enums(nodes, node.file, Some(index), message.enums.as_slice())?;
    }
    Ok(())
}

fn push_messages<'f>(
    nodes: &mut Vec<TypeNode<'f>>,
    file: &'f FileDecl,
    parent: Option<usize>,
    messages: &'f [MessageDecl],
) -> Result<(), AllocError> {
    for message in messages {
        nodes.push(TypeNode {
            file,
            name: message.name.as_str(),
            parent,
            message: Some(message),
        })?;
    }
    Ok(())
}

fn push_enums<'f>(
    nodes: &mut Vec<TypeNode<'f>>,
    file: &'f FileDecl,
    parent: Option<usize>,
    enums: &'f [EnumDecl],
) -> Result<(), AllocError> {
    for entry in enums {
        nodes.push(TypeNode {
            file,
            name: entry.name.as_str(),
            parent,
            message: None,
        })?;
    }
    Ok(())
}

/// The full name of the type at an index.
pub(crate) fn full_name(
    alloc: Global,
    nodes: &[TypeNode<'_>],
    index: usize,
) -> Result<String, AllocError> {
    let mut name = match nodes.get(index) {
        Some(node) => node.file.package.clone()?,
        None => String::new(alloc),
    };
    let around = with_parents(alloc, nodes, index)?;
    for node in around.as_slice().iter().rev() {
        if !name.is_empty() {
            name.push_str(".")?;
        }
        name.push_str(node.name)?;
    }
    Ok(name)
}

/// A type and those around it, from the inside out.
fn with_parents<'f>(
    alloc: Global,
    nodes: &[TypeNode<'f>],
    index: usize,
) -> Result<Vec<TypeNode<'f>>, AllocError> {
    let mut found = Vec::new(alloc);
    let mut next = nodes.get(index).copied();
    for _ in 0..nodes.len() {
        let Some(node) = next else {
            return Ok(found);
        };
        found.push(node)?;
        next = parent_of(nodes, node);
    }
    Ok(found)
}

/// The message that a type is in.
fn parent_of<'f>(nodes: &[TypeNode<'f>], node: TypeNode<'f>) -> Option<TypeNode<'f>> {
    nodes.get(node.parent?).copied()
}
