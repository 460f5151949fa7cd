// Declarations as nodes.
use crate::flat::Flat;
use crate::flat::conditional::{Among, Arm};
use crate::syntax::put;
use crate::{Form, List, StructNode, View, Want};
use dc_ast::{
    Attribute, Declaration, DeclarationBody, DeclarationBranch, DeclarationForm, DeclarationKind,
    StaticDeclaration, StructTree, TemplateTree, Visibility,
};

fn view_in(section: Visibility) -> View {
    match section {
        Visibility::Private => View::Private,
        Visibility::Public => View::Public,
    }
}

/// Who sees a declaration with these words before it, where it is otherwise seen as `view` says.
/// The last word holds.
fn view_behind(attributes: &[Attribute], view: View) -> View {
    let mut view = view;
    for attribute in attributes {
        match attribute {
            Attribute::Private => view = View::Private,
            Attribute::Public => view = View::Public,
            _ => {}
        }
    }
    view
}

impl Flat<'_> {
    /// The declarations of a list, with those of its groups, each with who sees it.
    #[cycle(flat_declaration)]
    pub(crate) fn declarations(&mut self, list: &[Declaration]) -> Result<List, Want> {
        let mut nodes = Vec::new(self.alloc);
        self.collect(list, View::Inherited, &mut nodes)?;
        self.list(nodes.as_slice())
    }

    /// Appends the declarations of a list, or of a group, up to whose first section they are seen
    /// as `view` says.
    #[cycle(flat_declaration)]
    fn collect(
        &mut self,
        list: &[Declaration],
        view: View,
        nodes: &mut Vec<u32>,
    ) -> Result<(), Want> {
        let mut view = view;
        for declaration in list {
            view = self.declaration(declaration, view, nodes)?;
        }
        Ok(())
    }

    /// Appends what stands at the place of a declaration, and says how what follows it is seen.
    #[cycle(flat_declaration)]
    fn declaration(
        &mut self,
        declaration: &Declaration,
        view: View,
        nodes: &mut Vec<u32>,
    ) -> Result<View, Want> {
        match &declaration.form {
            DeclarationForm::Plain(attributes, plain) => {
                let own = view_behind(attributes.as_slice(), view);
                let form = self.declaration_form(plain.at, &plain.kind)?;
                let bare = self.add(plain.at, form)?;
                let node = self.add(plain.at, Form::Declared(own, bare))?;
                nodes.push(node.0)?;
                Ok(view)
            }
            DeclarationForm::Group(attributes, inside) => {
                let own = view_behind(attributes.as_slice(), view);
                self.collect(inside.as_slice(), own, nodes)?;
                Ok(view)
            }
            DeclarationForm::Section(section) => Ok(view_in(*section)),
            DeclarationForm::Empty => Ok(view),
        }
    }

    #[cycle(flat_declaration)]
    fn declaration_form(&mut self, at: u32, kind: &DeclarationKind) -> Result<Form, Want> {
        match kind {
            DeclarationKind::Import(tree) => self.import(tree),
            DeclarationKind::Enum(tree) => self.enumeration(tree),
            DeclarationKind::Constant(tree) => self.constant(tree),
            DeclarationKind::Alias(tree) => self.alias(tree),
            DeclarationKind::Struct(tree) => self.structure(tree),
            DeclarationKind::Template(tree) => self.template(tree),
            DeclarationKind::Function(tree) => self.function(tree),
            DeclarationKind::Variable(tree) => self.variables(at, tree),
            DeclarationKind::Static(tree) => self.static_declaration(tree),
            DeclarationKind::Mixin(e) => Ok(Form::MixinHere(self.expression(e)?)),
        }
    }

    #[cycle(flat_declaration)]
    fn structure(&mut self, tree: &StructTree) -> Result<Form, Want> {
        let node = StructNode {
            name: self.name(&tree.name)?,
            parameters: self.maybe_template_parameters(&tree.parameters)?,
            constraint: self.maybe_expression(&tree.constraint)?,
            members: self.declarations(tree.members.as_slice())?,
        };
        Ok(Form::Struct(put(&mut self.syntax.structs, node)?))
    }

    #[cycle(flat_declaration)]
    fn template(&mut self, tree: &TemplateTree) -> Result<Form, Want> {
        let node = StructNode {
            name: self.name(&tree.name)?,
            parameters: Some(self.template_parameters(tree.parameters.as_slice())?),
            constraint: self.maybe_expression(&tree.constraint)?,
            members: self.declarations(tree.members.as_slice())?,
        };
        Ok(Form::Template(put(&mut self.syntax.structs, node)?))
    }

    #[cycle(flat_declaration)]
    fn static_declaration(&mut self, tree: &StaticDeclaration) -> Result<Form, Want> {
        match tree {
            StaticDeclaration::Conditional(branches, last) => {
                let last = match last {
                    Some(body) => self.declaration_body(body)?,
                    None => self.list(&[])?,
                };
                let arms = self.declaration_arms(branches.as_slice())?;
                self.nested(Among::Declarations, arms.as_slice(), last)
            }
            StaticDeclaration::Foreach(range, body) => {
                let body = self.declaration_body(body)?;
                self.static_foreach(range, body)
            }
            StaticDeclaration::Assert(tree) => self.static_assert(tree),
        }
    }

    #[cycle(flat_declaration)]
    fn declaration_arms(&mut self, branches: &[DeclarationBranch]) -> Result<Vec<Arm>, Want> {
        let mut arms = Vec::new(self.alloc);
        for branch in branches {
            let test = self.arm_test(&branch.test)?;
            let body = self.declaration_body(&branch.body)?;
            arms.push(Arm {
                at: branch.at,
                test,
                body,
            })?;
        }
        Ok(arms)
    }

    #[cycle(flat_declaration)]
    fn declaration_body(&mut self, body: &DeclarationBody) -> Result<List, Want> {
        match body {
            DeclarationBody::One(declaration) => {
                let mut nodes = Vec::new(self.alloc);
                self.declaration(declaration.get(), View::Inherited, &mut nodes)?;
                self.list(nodes.as_slice())
            }
            DeclarationBody::Braces(list) => self.declarations(list.as_slice()),
        }
    }
}
